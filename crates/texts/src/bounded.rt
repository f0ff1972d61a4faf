// A text of limited length.
ghost use Rattle.std.specs.Prelude.{◌≡◌, ◌+◌, ◌≤◌, [], ◌++◌, length, take, is_ok, OnOk, nat_le};
ghost use Rattle.texts.specs.Flats.{flat_text};

use crate::room::Bounded;
use std::cmp;

/// A text has no room for what is to be added.
#[derive(Clone, Copy)]
pub struct TooLong;

impl<const N: usize> Bounded<N> {
    /// The empty text.
    pub fn new() -> Bounded<N>
        ensures text { flat_text result ≡ [] }
    {
        Bounded {
            bytes: [0; N],
            len: 0,
        }
    }

    /// As much of a text as has room: all of it, or its first bytes.
    pub fn front_of(text: &[u8]) -> Bounded<N>
        ensures text { flat_text result ≡ take N text.now }
    {
        let len = cmp::min(text.len(), N);
        let mut bytes = [0; N];
        let room = &mut bytes[..];
        room[0..len].copy_from_slice(&text[0..len]);
        Bounded { bytes, len }
    }

    /// The bytes.
    pub fn as_slice(&self) -> &[u8]
        ensures text { result.now ≡ flat_text self.now }
        ensures few { length result.now ≤ N }
    {
        let room = &self.bytes[..];
        &room[0..self.len]
    }

    /// Adds bytes at the end, if they fit.
    pub fn add(&mut self, more: &[u8]) -> Result<(), TooLong>
        ensures fits { is_ok result ≡ nat_le (length (flat_text self.old) + length more.now) N }
        ensures text { OnOk result (flat_text self.new ≡ flat_text self.old ++ more.now) }
    {
        let from = self.len;
        if more.len() > N - from {
            return Err(TooLong);
        }
        let to = from + more.len();
        let room = &mut self.bytes[..];
        room[from..to].copy_from_slice(more);
        self.len = to;
        Ok(())
    }
}
