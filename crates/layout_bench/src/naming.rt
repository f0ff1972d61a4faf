// The names that a start hands in.
use crate::kept::{Kept, keep};
use layout::{AWINT_FN_NAMES, AWINT_NAMES, FnNames, Names};
use script::NameOf;

// awint's own names, in the order of `NameOf`.
fn awints() -> [&'static [u8]; 25] {
    let names = AWINT_NAMES;
    let calls = AWINT_FN_NAMES;
    [
        names.constant,
        names.bind,
        names.value,
        names.width,
        names.cw,
        names.bits_ref,
        names.awi,
        names.awi_ref,
        names.shl,
        names.res,
        calls.get_bw,
        calls.mut_bits_ref,
        calls.bits_ref,
        calls.usize_cast,
        calls.usize_add,
        calls.usize_sub,
        calls.max_fn,
        calls.cc_checks_fn,
        calls.copy_,
        calls.field,
        calls.field_to,
        calls.field_from,
        calls.field_width,
        calls.field_bit,
        calls.bw_call,
    ]
}

/// The names of what printed text declares and calls, in the order of `NameOf`.
#[derive(Clone, Copy)]
pub struct AllNames {
    texts: [Kept; 25],
}

impl AllNames {
    /// awint's own.
    pub fn new() -> AllNames {
        let mut texts = [keep(b""); 25];
        for (text, own) in texts.iter_mut().zip(awints().iter()) {
            *text = keep(own);
        }
        AllNames { texts }
    }

    fn text(&self, of: NameOf) -> &[u8] {
        self.texts[of as usize].as_slice()
    }

    pub fn set(&mut self, of: NameOf, text: Kept) {
        self.texts[of as usize] = text;
    }

    pub fn names(&self) -> Names<'_> {
        Names {
            constant: self.text(NameOf::Constant),
            bind: self.text(NameOf::Bind),
            value: self.text(NameOf::Value),
            width: self.text(NameOf::Width),
            cw: self.text(NameOf::Cw),
            bits_ref: self.text(NameOf::Reference),
            awi: self.text(NameOf::Awi),
            awi_ref: self.text(NameOf::AwiRef),
            shl: self.text(NameOf::Shl),
            res: self.text(NameOf::Res),
        }
    }

    pub fn fn_names(&self) -> FnNames<'_> {
        FnNames {
            get_bw: self.text(NameOf::GetBw),
            mut_bits_ref: self.text(NameOf::MutBitsRef),
            bits_ref: self.text(NameOf::BitsRef),
            usize_cast: self.text(NameOf::UsizeCast),
            usize_add: self.text(NameOf::UsizeAdd),
            usize_sub: self.text(NameOf::UsizeSub),
            max_fn: self.text(NameOf::MaxFn),
            cc_checks_fn: self.text(NameOf::CcChecksFn),
            copy_: self.text(NameOf::CopyFn),
            field: self.text(NameOf::Field),
            field_to: self.text(NameOf::FieldTo),
            field_from: self.text(NameOf::FieldFrom),
            field_width: self.text(NameOf::FieldWidth),
            field_bit: self.text(NameOf::FieldBit),
            bw_call: self.text(NameOf::BwCall),
        }
    }
}
