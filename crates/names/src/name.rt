// A name as a key.
use crate::numbers::PName;
use pool::Word;

// A name: a run of the bytes that are stored. Names are ordered byte by byte. A text is handed in as a plain slice, and each call asks that
// it is short: a type of short texts would be made by the caller at each call.
pub(crate) type Name = Word<u8, PName>;
