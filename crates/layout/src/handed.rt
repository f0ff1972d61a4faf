// Whether what is handed in for the printed text is as it has to be.
ghost use Rattle.components.specs.Concatenations.{all_of, some_of};
ghost use Rattle.layout.specs.Handed.{apart, around_handed, code_gen_handed, fits_around, fits_name, fn_names_handed, fn_names_list, names_handed, no_parenthesis, parenthesis};
ghost use Rattle.std.specs.Prelude.{◌≡◌, map};

use crate::handed_names::{Around, CodeGen, FnNames, Names};
use crate::reading::are_same;

// Whether a text has at most 64 bytes, all printable.
fn is_around(text: &[u8]) -> bool
    ensures answer { result ≡ fits_around text.now }
{
    text.len() <= 64 && texts::all_printable(text)
}

// Whether a text is such and not empty.
fn is_name(text: &[u8]) -> bool
    ensures answer { result ≡ fits_name text.now }
{
    1 <= text.len() && is_around(text)
}

// Whether each of the texts is a name.
fn are_names(texts: &[&[u8]]) -> bool
    ensures answer { result ≡ all_of fits_name (map (λ text. text.now) texts.now) }
{
    texts.iter().all(|text| is_name(text))
}

// Whether no two of three texts are the same.
fn are_apart(a: &[u8], b: &[u8], c: &[u8]) -> bool
    ensures answer { result ≡ apart a.now b.now c.now }
{
    !are_same(a, b) && !are_same(a, c) && !are_same(b, c)
}

// Whether a text holds an opening parenthesis.
fn has_parenthesis(text: &[u8]) -> bool
    ensures answer { result ≡ some_of parenthesis text.now }
{
    text.contains(&b'(')
}

// Whether none of the texts does.
fn lack_parenthesis(texts: &[&[u8]]) -> bool
    ensures answer { result ≡ all_of no_parenthesis (map (λ text. text.now) texts.now) }
{
    texts.iter().all(|text| !has_parenthesis(text))
}

impl Names<'_> {
    /// Whether each of the names has 1 to 64 bytes, all printable.
    pub fn fit(&self) -> bool
        ensures answer { result ≡ names_handed self.now }
    {
        are_names(&[
            self.constant,
            self.bind,
            self.value,
            self.width,
            self.cw,
            self.bits_ref,
            self.awi,
            self.awi_ref,
            self.shl,
            self.res,
        ])
    }
}

impl FnNames<'_> {
    // Whether each of the names has 1 to 64 bytes, all printable.
    fn all_names(&self) -> bool
        ensures answer { result ≡ all_of fits_name (fn_names_list self.now) }
    {
        are_names(&[
            self.get_bw,
            self.mut_bits_ref,
            self.bits_ref,
            self.usize_cast,
            self.usize_add,
            self.usize_sub,
            self.max_fn,
            self.cc_checks_fn,
            self.copy_,
            self.field,
            self.field_to,
            self.field_from,
            self.field_width,
            self.field_bit,
            self.bw_call,
        ])
    }

    /// Whether each of the names has 1 to 64 bytes, all printable, and the three by which a bound's text is known as a
    /// call differ and have no opening parenthesis.
    pub fn fit(&self) -> bool
        ensures answer { result ≡ fn_names_handed self.now }
    {
        self.all_names()
            && are_apart(self.get_bw, self.usize_add, self.usize_sub)
            && lack_parenthesis(&[self.get_bw, self.usize_add, self.usize_sub])
    }
}

impl Around<'_> {
    // Whether what stands before and what stands after have at most 64 bytes each, all printable.
    fn fit(&self) -> bool
        ensures answer { result ≡ around_handed self.now }
    {
        is_around(self.before) && is_around(self.after)
    }
}

impl CodeGen<'_> {
    /// Whether each of the texts before and after has at most 64 bytes, all printable.
    pub fn fit(&self) -> bool
        ensures answer { result ≡ code_gen_handed self.now }
    {
        [
            self.must_use,
            self.static_construction_fn,
            self.lit_construction_fn,
            self.construction_fn,
            self.const_wrapper,
        ]
        .iter()
        .all(|around| around.fit())
    }
}
