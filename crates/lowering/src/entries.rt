// Entries to fill lent memory with: one function for each pool, since what stands for nothing is another value in each,
// and a generic function would have to take the same four values from the impls of a trait.
ghost use Rattle.std.specs.Prelude.{◌≡◌, false, pos};

use crate::marks::{BindMarks, SumMarks, ValueMarks, WidthMarks};
use lower::{Base, Bind, CWidth, Value, Width};
use pool::{Entry, Number, PVal};

/// An entry that stands for no binding.
pub fn no_binding() -> Entry<Bind, BindMarks>
    ensures key { result.key ≡ Bind.Literal 0 0 }
    ensures marks { result.marks ≡ record { used = false; mutable = false } }
{
    Entry::new(Bind::Literal { width: 0, value: 0 }, BindMarks::default())
}

/// An entry that stands for no value.
pub fn no_value() -> Entry<Value, ValueMarks>
    ensures key { result.key ≡ Value.Usize Base.Nothing (pos 0) }
    ensures marks { result.marks ≡ record { used = false } }
{
    let nothing = Value::Usize {
        base: Base::Nothing,
        x: 0,
    };
    Entry::new(nothing, ValueMarks::default())
}

/// An entry that stands for no width.
pub fn no_width() -> Entry<Width, WidthMarks>
    ensures key { result.key ≡ Width.Single (record { 0 = 0 }) }
    ensures marks { result.marks ≡ record { checked = false; assigned = false } }
{
    Entry::new(Width::Single(PVal::from_index(0)), WidthMarks::default())
}

/// An entry that stands for no sum.
pub fn no_sum() -> Entry<CWidth, SumMarks>
    ensures key { result.key.run ≡ record { start = 0; len = 0 } }
    ensures marks { result.marks ≡ record { used = false } }
{
    Entry::new(CWidth::new(0, 0), SumMarks::default())
}
