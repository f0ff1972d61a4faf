// Places of variables in a row of bits, and parts of them.
ghost use Rattle.std.specs.Prelude.{◌≡◌, ℕ, ◌+◌, ◌^◌, ◌<◌, ◌≤◌, true, length, IfOk, MatchOption};
ghost use Rattle.host.specs.Parts.{found, inside, part_refusal, refused_part};
ghost use Rattle.host.specs.Spans.{laid, lies, placed, span_at, start_of, width_of};
ghost use Rattle.host.specs.Refusals.{refusal};

use crate::reasons::{Reason, Refusal};

// The place of a variable: where it starts, and how many bits it has.
#[derive(Clone, Copy, PartialEq, Eq, Debug)]
pub(crate) struct Span {
    pub start: usize,
    pub width: usize,
}

// The place that a variable of this width gets from `at` on, in a row of `room` bits.
fn place(room: usize, at: usize, width: usize) -> Option<Span>
    requires at { at ≤ room }
    ensures answer { result ≡ placed room at width }
{
    let fits = 1 <= width && width <= 65_536 && width <= room - at;
    fits.then_some(Span { start: at, width })
}

// Lays variables of these widths end to end in a row of `room` bits, and notes their places: as many as there
// are spans to note them in, with none past the last width. One turn for each span.
pub(crate) fn lay(room: usize, widths: &[usize], spans: &mut [Option<Span>])
    ensures spans { (k : ℕ) → k < length spans.old → span_at spans.new k ≡ span_at (laid room 0 widths.now) k }
{
    let mut at = 0;
    // No `zip` of the two: spans past the last width get none.
    for (i, span) in spans.iter_mut().enumerate() {
        let width = widths.get(i).copied().unwrap_or(0);
        *span = place(room, at, width);
        if span.is_some() {
            at += width;
        }
    }
}

impl Span {
    // Where a part of the variable begins in its row, if it is 1 to 64 bits inside the variable, however much of
    // that lies inside the row. The part comes as plain numbers, since wrong ones are refused.
    pub(crate) fn part(self, offset: usize, count: usize) -> Option<usize>
        ensures place { MatchOption result (inside self.width offset count ≡ true → 2 ^ 64 ≤ self.start + offset) (λ at. (at ≡ self.start + offset) × (inside self.width offset count ≡ true)) }
    {
        if count < 1 || count > 64 || offset > self.width || count > self.width - offset {
            return None;
        }
        self.start.checked_add(offset)
    }
}

// The place of a variable that may be lacking, in a row of `room` bits.
#[derive(Clone, Copy)]
pub(crate) struct Lot {
    pub span: Option<Span>,
    pub room: usize,
}

impl Lot {
    // What of the place lies inside the row.
    fn within_row(self) -> Option<Span>
        ensures answer { result ≡ lies self.room self.span }
    {
        match self.span {
            Some(s) if s.start < self.room => Some(Span {
                start: s.start,
                width: s.width.min(self.room - s.start),
            }),
            _ => None,
        }
    }

    // The width of the variable there; refused by 23 where there is none.
    pub(crate) fn width(self) -> Result<usize, Refusal>
        ensures answer { result ≡ found (width_of (lies self.room self.span)) }
    {
        let there = self.within_row().ok_or(Refusal::plain(Reason::NoSuchName))?;
        Ok(there.width)
    }

    // How a part of the variable there is refused that is not to be had: by 23 where there is no variable, else by 24.
    pub(crate) fn refusal(self) -> Refusal
        ensures answer { result ≡ refused_part (width_of (lies self.room self.span)) }
    {
        match self.width() {
            Ok(_) => Refusal::plain(Reason::PartOutside),
            Err(lacking) => lacking,
        }
    }

    // Where a part of the variable there begins in the row; refused by 23 where there is no variable, else by 24 where
    // the part is not 1 to 64 bits inside it.
    pub(crate) fn part(self, offset: usize, count: usize) -> Result<usize, Refusal>
        ensures refused { refusal result ≡ part_refusal (width_of (lies self.room self.span)) offset count }
        ensures place { IfOk result (λ at. (at ≡ start_of self.span + offset) × (at + count ≤ self.room) × (1 ≤ count) × (count ≤ 64)) }
    {
        match self.span.and_then(|s| s.part(offset, count)) {
            Some(at) if at <= self.room && count <= self.room - at => Ok(at),
            _ => Err(self.refusal()),
        }
    }
}
