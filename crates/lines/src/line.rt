// A line as words, which blanks part.
ghost use Rattle.std.specs.Prelude.{◌≡◌, ◌≤◌, length, not, is_ok, IfErr, IfOk, Some, None, MatchResult};
ghost use Rattle.std.specs.List.{position_or_len};
ghost use Rattle.std.specs.Option.{option_map, is_none};
ghost use Rattle.lines.specs.Numbers.{hex_word, numeral};
ghost use Rattle.lines.specs.Quotes.{quoted_word};
ghost use Rattle.lines.specs.Reading.{read_by};
ghost use Rattle.lines.specs.declared.faults.Misread.TheVariants.{Unreadable};
ghost use Rattle.lines.specs.Words.{after_blanks, after_word, blank, first_word, front, past};

use crate::faults::Misread;
use crate::lists::Item;
use crate::{lists, numbers, quotes};
use std::alloc::Global;

// A carriage return before the line feed counts as a blank.
fn is_blank(byte: u8) -> bool
    ensures answer { result ≡ blank byte }
{
    matches!(byte, b' ' | b'\t' | b'\r')
}

// How many blanks the bytes begin with.
fn blanks(bytes: &[u8]) -> usize
    ensures within { result ≤ length bytes.now }
    ensures count { result ≡ position_or_len (λ c. not (blank c)) bytes.now }
{
    let first = bytes.iter().position(|byte| !is_blank(*byte));
    first.unwrap_or(bytes.len())
}

// How many bytes there are before the first blank.
fn unbroken(bytes: &[u8]) -> usize
    ensures within { result ≤ length bytes.now }
    ensures count { result ≡ position_or_len blank bytes.now }
{
    let first = bytes.iter().position(|byte| is_blank(*byte));
    first.unwrap_or(bytes.len())
}

// The bytes from the first that is no blank on.
fn unindented(bytes: &[u8]) -> &[u8]
    ensures rest { result.now ≡ after_blanks bytes.now }
{
    &bytes[blanks(bytes)..]
}

// The bytes before the first blank, and those from it on.
fn cut(bytes: &[u8]) -> (&[u8], &[u8])
    ensures front { result.0.now ≡ front bytes.now }
    ensures rest { result.1.now ≡ past bytes.now }
{
    bytes.split_at(unbroken(bytes))
}

/// What is left of a line, and the memory for what it spells.
#[derive(Drop)]
pub struct Line<'a> {
    rest: &'a [u8],
    heap: Global,
}

// Each call says itself what it takes of the line, in a clause that a caller can cite.
impl<'a> Line<'a> {
    pub fn new(heap: Global, rest: &'a [u8]) -> Line<'a>
        ensures rest { result.rest.now ≡ rest.now }
    {
        Line { rest, heap }
    }

    /// Takes the next word, if there is one.
    pub fn next_word(&mut self) -> Option<&'a [u8]>
        ensures word { option_map (λ x. x.now) result ≡ first_word self.old.rest.now }
        ensures rest { self.new.rest.now ≡ after_word self.old.rest.now }
    {
        let words = unindented(self.rest);
        let (word, rest) = cut(words);
        self.rest = rest;
        (!word.is_empty()).then_some(word)
    }

    /// Takes the next word, which has to be there.
    pub fn word(&mut self) -> Result<&'a [u8], Misread>
        ensures rest { self.new.rest.now ≡ after_word self.old.rest.now }
        ensures word { MatchResult result (λ w. first_word self.old.rest.now ≡ Some w.now) (λ e. (e ≡ Unreadable) × (first_word self.old.rest.now ≡ None)) }
    {
        self.next_word().ok_or(Misread::Unreadable)
    }

    /// Takes the next word, a decimal.
    pub fn decimal(&mut self) -> Result<u64, Misread>
        ensures rest { self.new.rest.now ≡ after_word self.old.rest.now }
        ensures value { result ≡ read_by (numeral 10) (first_word self.old.rest.now) }
    {
        numbers::decimal(self.word()?).ok_or(Misread::Unreadable)
    }

    /// Takes the next word, a decimal that counts something or names it.
    pub fn number(&mut self) -> Result<usize, Misread>
        ensures rest { self.new.rest.now ≡ after_word self.old.rest.now }
        ensures value { result ≡ read_by (numeral 10) (first_word self.old.rest.now) }
    {
        Ok(self.decimal()? as usize)
    }

    /// Takes the next word, hexadecimal.
    pub fn hex_word(&mut self) -> Result<u64, Misread>
        ensures rest { self.new.rest.now ≡ after_word self.old.rest.now }
        ensures value { result ≡ read_by hex_word (first_word self.old.rest.now) }
    {
        numbers::hex_word(self.word()?).ok_or(Misread::Unreadable)
    }

    /// Takes the next word, a list of items.
    pub fn items<T: Item + Drop>(&mut self) -> Result<Vec<T>, Misread>
        ensures rest { self.new.rest.now ≡ after_word self.old.rest.now }
    {
        lists::items(self.heap, self.word()?)
    }

    /// Takes the next word, pairs of hexadecimal digits.
    pub fn bytes(&mut self) -> Result<Vec<u8>, Misread>
        ensures rest { self.new.rest.now ≡ after_word self.old.rest.now }
    {
        lists::bytes(self.heap, self.word()?)
    }

    /// Takes the next word, a quoted string. Behind its closing quote the line ends, or a blank stands.
    pub fn quoted(&mut self) -> Result<Vec<u8>, Misread>
        ensures text { MatchResult result (λ t. quoted_word self.old.rest.now ≡ Some (t.items, self.new.rest.now)) (λ e. (e ≡ Unreadable → quoted_word self.old.rest.now ≡ None)) }
        ensures refused { IfErr result (λ _. self.new.rest.now ≡ self.old.rest.now) }
    {
        let [b'"', inside @ ..] = unindented(self.rest) else {
            return Err(Misread::Unreadable);
        };
        let (text, behind) = quotes::unquote(self.heap, inside)?;
        if !cut(behind).0.is_empty() {
            return Err(Misread::Unreadable);
        }
        self.rest = behind;
        Ok(text)
    }

    /// Takes the words to the end of the line, and reads each.
    pub fn all<T: Drop, F: Fn(&[u8]) -> Result<T, Misread> + Drop>(
        &mut self,
        read: F,
    ) -> Result<Vec<T>, Misread>
        requires { F.IsAlwaysCallable read }
        ensures over { IfOk result (λ _. first_word self.new.rest.now ≡ None) }
    {
        let mut all = Vec::new(self.heap);
        while let Some(word) = self.next_word() {
            all.push(read(word)?)?;
        }
        Ok(all)
    }

    /// There has to be no word left.
    pub fn end(&mut self) -> Result<(), Misread>
        ensures over { is_ok result ≡ is_none (first_word self.old.rest.now) }
    {
        match self.next_word() {
            Some(_) => Err(Misread::Unreadable),
            None => Ok(()),
        }
    }
}

#[cfg(test)]
mod tests {
    use super::*;
    use std::test::Fail;

    #[test]
    fn lists_and_bytes_are_taken(rt: HostRuntime) -> Result<(), Fail> {
        let mut line = Line::new(rt.alloc(), b" 3,5\t- a0Ff - \r");
        let widths = line.items::<usize>();
        assert!(rt; widths.is_ok_and(|items| items.as_slice() == [3, 5].as_slice()));
        let words = line.items::<u64>();
        assert!(rt; words.is_ok_and(|items| items.is_empty()));
        let bytes = line.bytes();
        assert!(rt; bytes.is_ok_and(|bytes| bytes.as_slice() == [0xa0, 0xff].as_slice()));
        let bytes = line.bytes();
        assert!(rt; bytes.is_ok_and(|bytes| bytes.is_empty()));
        assert!(rt; line.end().is_ok());
        Ok(())
    }

    #[test]
    fn numbers_past_their_bits_are_not_read(rt: HostRuntime) -> Result<(), Fail> {
        let mut line = Line::new(rt.alloc(), b"4294967295 4294967296");
        assert!(rt; line.items::<u32>().is_ok());
        assert!(rt; line.items::<u32>().is_err());
        Ok(())
    }

    #[test]
    fn strings_are_taken(rt: HostRuntime) -> Result<(), Fail> {
        let mut line = Line::new(rt.alloc(), b"\"a \\\"\\x7e\" rest");
        let text = line.quoted();
        assert!(rt; text.is_ok_and(|text| text.as_slice() == b"a \"~".as_slice()));
        assert!(rt; line.quoted().is_err());
        assert!(rt; line.word().is_ok_and(|word| word == b"rest".as_slice()));
        Ok(())
    }

    fn read_decimal(word: &[u8]) -> Result<u64, Misread> {
        numbers::decimal(word).ok_or(Misread::Unreadable)
    }

    #[test]
    fn all_words_are_read(rt: HostRuntime) -> Result<(), Fail> {
        let mut line = Line::new(rt.alloc(), b"7 8  9");
        let all = line.all(read_decimal);
        assert!(rt; all.is_ok_and(|all| all.as_slice() == [7, 8, 9].as_slice()));
        let none = line.all(read_decimal);
        assert!(rt; none.is_ok_and(|none| none.is_empty()));
        Ok(())
    }
}
