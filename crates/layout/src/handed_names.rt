// What is handed in for the printed text: names, names of functions, and what stands around an inner text.

/// Prefixes and names that the text uses.
#[derive(Clone, Copy)]
pub struct Names<'a> {
    /// Prefix of constants.
    pub constant: &'a [u8],
    /// Prefix of bindings.
    pub bind: &'a [u8],
    /// Prefix of values.
    pub value: &'a [u8],
    /// Prefix of widths.
    pub width: &'a [u8],
    /// Prefix of the widths of concatenations, and name of the common width.
    pub cw: &'a [u8],
    /// Prefix of references to bits.
    pub bits_ref: &'a [u8],
    /// Name of what is built.
    pub awi: &'a [u8],
    /// Name of the reference to it.
    pub awi_ref: &'a [u8],
    /// Name of the offset to which bits go.
    pub shl: &'a [u8],
    /// Name of the result of the checks.
    pub res: &'a [u8],
}

/// The names that awint uses.
pub const AWINT_NAMES: Names<'static> = Names {
    constant: b"__awint_constant",
    bind: b"__awint_bind",
    value: b"__awint_val",
    width: b"__awint_width",
    cw: b"__awint_cw",
    bits_ref: b"__awint_ref",
    awi: b"__awint_awi",
    awi_ref: b"__awint_awi_ref",
    shl: b"__awint_shl",
    res: b"__awint_res",
};

/// Names of the functions that the text calls.
#[derive(Clone, Copy)]
pub struct FnNames<'a> {
    pub get_bw: &'a [u8],
    pub mut_bits_ref: &'a [u8],
    pub bits_ref: &'a [u8],
    pub usize_cast: &'a [u8],
    pub usize_add: &'a [u8],
    pub usize_sub: &'a [u8],
    pub max_fn: &'a [u8],
    pub cc_checks_fn: &'a [u8],
    pub copy_: &'a [u8],
    pub field: &'a [u8],
    pub field_to: &'a [u8],
    pub field_from: &'a [u8],
    pub field_width: &'a [u8],
    pub field_bit: &'a [u8],
    /// What ends a bound's text that asks for a width.
    pub bw_call: &'a [u8],
}

/// The functions that awint calls.
pub const AWINT_FN_NAMES: FnNames<'static> = FnNames {
    get_bw: b"Bits::bw",
    mut_bits_ref: b"&mut Bits",
    bits_ref: b"&Bits",
    usize_cast: b"Bits::usize_cast",
    usize_add: b"Bits::usize_add",
    usize_sub: b"Bits::usize_sub",
    max_fn: b"Bits::unstable_max",
    cc_checks_fn: b"Bits::unstable_cc_checks",
    copy_: b"Bits::copy_",
    field: b"Bits::field",
    field_to: b"Bits::field_to",
    field_from: b"Bits::field_from",
    field_width: b"Bits::field_width",
    field_bit: b"Bits::field_bit",
    bw_call: b".bw()",
};

/// What stands before and after an inner text.
#[derive(Clone, Copy)]
pub struct Around<'a> {
    pub before: &'a [u8],
    pub after: &'a [u8],
}

/// What stands around the texts that are built.
#[derive(Clone, Copy)]
pub struct CodeGen<'a> {
    pub must_use: Around<'a>,
    pub static_construction_fn: Around<'a>,
    pub lit_construction_fn: Around<'a>,
    pub construction_fn: Around<'a>,
    pub const_wrapper: Around<'a>,
}

impl Around<'static> {
    /// Nothing before and nothing after.
    pub const NOTHING: Around<'static> = Around {
        before: b"",
        after: b"",
    };
}
