// What is set for the starts to come: names, texts around, and entries.
use lines::{Line, Misread};

/// A name that a start hands in.
#[derive(Clone, Copy)]
pub enum NameOf {
    Constant,
    Bind,
    Value,
    Width,
    Cw,
    Reference,
    Awi,
    AwiRef,
    Shl,
    Res,
    GetBw,
    MutBitsRef,
    BitsRef,
    UsizeCast,
    UsizeAdd,
    UsizeSub,
    MaxFn,
    CcChecksFn,
    CopyFn,
    Field,
    FieldTo,
    FieldFrom,
    FieldWidth,
    FieldBit,
    BwCall,
}

/// What stands between a text before and one after.
#[derive(Clone, Copy)]
pub enum Surrounded {
    MustUse,
    StaticConstruction,
    LitConstruction,
    Construction,
    ConstWrapper,
}

/// A kind of entry that a start lends.
#[derive(Clone, Copy)]
pub enum Kind {
    Bindings,
    Values,
    Widths,
    Sums,
    Parts,
    Instructions,
}

#[derive(Drop)]
pub enum Setting {
    Name {
        of: NameOf,
        text: Vec<u8>,
    },
    Around {
        of: Surrounded,
        before: Vec<u8>,
        after: Vec<u8>,
    },
    Entries {
        kind: Kind,
        count: u64,
    },
}

// A name by the field that holds it.
impl TryFrom<&[u8]> for NameOf {
    type Error = Misread;

    fn try_from(word: &[u8]) -> Result<NameOf, Misread> {
        match word {
            b"constant" => Ok(NameOf::Constant),
            b"bind" => Ok(NameOf::Bind),
            b"value" => Ok(NameOf::Value),
            b"width" => Ok(NameOf::Width),
            b"cw" => Ok(NameOf::Cw),
            b"names.bits_ref" => Ok(NameOf::Reference),
            b"awi" => Ok(NameOf::Awi),
            b"awi_ref" => Ok(NameOf::AwiRef),
            b"shl" => Ok(NameOf::Shl),
            b"res" => Ok(NameOf::Res),
            b"get_bw" => Ok(NameOf::GetBw),
            b"mut_bits_ref" => Ok(NameOf::MutBitsRef),
            b"fn_names.bits_ref" => Ok(NameOf::BitsRef),
            b"usize_cast" => Ok(NameOf::UsizeCast),
            b"usize_add" => Ok(NameOf::UsizeAdd),
            b"usize_sub" => Ok(NameOf::UsizeSub),
            b"max_fn" => Ok(NameOf::MaxFn),
            b"cc_checks_fn" => Ok(NameOf::CcChecksFn),
            b"copy_" => Ok(NameOf::CopyFn),
            b"field" => Ok(NameOf::Field),
            b"field_to" => Ok(NameOf::FieldTo),
            b"field_from" => Ok(NameOf::FieldFrom),
            b"field_width" => Ok(NameOf::FieldWidth),
            b"field_bit" => Ok(NameOf::FieldBit),
            b"bw_call" => Ok(NameOf::BwCall),
            _ => Err(Misread::Unreadable),
        }
    }
}

// A function by its field.
impl TryFrom<&[u8]> for Surrounded {
    type Error = Misread;

    fn try_from(word: &[u8]) -> Result<Surrounded, Misread> {
        match word {
            b"must_use" => Ok(Surrounded::MustUse),
            b"static_construction_fn" => Ok(Surrounded::StaticConstruction),
            b"lit_construction_fn" => Ok(Surrounded::LitConstruction),
            b"construction_fn" => Ok(Surrounded::Construction),
            b"const_wrapper" => Ok(Surrounded::ConstWrapper),
            _ => Err(Misread::Unreadable),
        }
    }
}

// A kind by what there are of it.
impl TryFrom<&[u8]> for Kind {
    type Error = Misread;

    fn try_from(word: &[u8]) -> Result<Kind, Misread> {
        match word {
            b"bindings" => Ok(Kind::Bindings),
            b"values" => Ok(Kind::Values),
            b"widths" => Ok(Kind::Widths),
            b"sums" => Ok(Kind::Sums),
            b"parts" => Ok(Kind::Parts),
            b"instructions" => Ok(Kind::Instructions),
            _ => Err(Misread::Unreadable),
        }
    }
}

/// What stands behind `name`.
pub(crate) fn read_name(line: &mut Line<'_>) -> Result<Setting, Misread> {
    let of = NameOf::try_from(line.word()?)?;
    let text = line.quoted()?;
    Ok(Setting::Name { of, text })
}

/// What stands behind `around`.
pub(crate) fn read_around(line: &mut Line<'_>) -> Result<Setting, Misread> {
    let of = Surrounded::try_from(line.word()?)?;
    let before = line.quoted()?;
    let after = line.quoted()?;
    Ok(Setting::Around { of, before, after })
}

/// What stands behind `entries`.
pub(crate) fn read_entries(line: &mut Line<'_>) -> Result<Setting, Misread> {
    let kind = Kind::try_from(line.word()?)?;
    let count = line.decimal()?;
    Ok(Setting::Entries { kind, count })
}
