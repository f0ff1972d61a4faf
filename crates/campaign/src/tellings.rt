// What a host's fields say, in words.
use crate::faults::*;
use crate::fields::{CARD, FLAGS, Field};
use host::Host;
use std::alloc::Global;
use std::fmt::Write;

// The numbers of the cards of a variable, first to last.
fn cards<H: Host>(heap: Global, host: &H, name: usize) -> Result<String, Fault> {
    let width = host.width(name)?;
    let mut text = String::new(heap);
    for i in 0..width / CARD {
        let card = host.read(name, i * CARD, CARD)?;
        if !text.is_empty() {
            text.push(' ')?;
        }
        write!(text, "{card}")?;
    }
    Ok(text)
}

// What the flags that are set say.
fn flags<H: Host>(heap: Global, host: &H, name: usize) -> Result<String, Fault> {
    let mut text = String::new(heap);
    for (i, flag) in FLAGS.iter().enumerate() {
        if host.read(name, i, 1)? == 1 {
            if !text.is_empty() {
                text.push_str(", ")?;
            }
            text.push_str(flag)?;
        }
    }
    Ok(text)
}

/// A field in words.
pub fn told<H: Host>(heap: Global, host: &H, field: Field) -> Result<String, Fault> {
    let name = field.name();
    match field {
        Field::Chapter => {
            let chapter = host.read(name, 0, host.width(name)?)?;
            Ok(format!(in heap; "{chapter}")?)
        }
        Field::Flags => flags(heap, host, name),
        Field::Deck | Field::Ada | Field::Ben | Field::Cleo => cards(heap, host, name),
    }
}
