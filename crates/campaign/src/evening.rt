// One evening, from the table to the code, and from the code to another table.
ghost use Rattle.std.specs.Prelude.{◌≡◌, ◌*◌, ◌≤◌, min, length};

use crate::faults::*;
use crate::fields::{CARD, Field, WIDTHS};
use crate::tellings::told;
use crate::{codes, fields, packing};
use host::{Host, Laid, PackedBytes, Refusal, Window, Words};
use std::alloc::{AllocError, Global};

// A page that shows the bits of a code as the fields of a table.
type Page<'a> = Window<Laid<PackedBytes<'a>>>;

// The number by which a host says how many seats are played.
const SEATS: usize = 0;

// Puts cards into a field, the first lowest.
fn lay<H: Host>(table: &mut H, field: Field, cards: &[u64]) -> Result<(), Refusal>
    requires few { length cards.now ≤ 12 }
{
    for (i, card) in cards.iter().enumerate() {
        table.write(field.name(), i * CARD, CARD, *card)?;
    }
    Ok(())
}

// The table as the evening ends.
fn set_up<H: Host>(table: &mut H) -> Result<(), Refusal> {
    table.write(Field::Chapter.name(), 0, 5, 7)?;
    table.write(Field::Flags.name(), 0, 6, 0b100101)?;
    lay(
        table,
        Field::Deck,
        &[33, 5, 60, 14, 28, 47, 2, 55, 17, 38, 10, 24],
    )?;
    lay(table, Field::Ada, &[12, 7, 31, 44])?;
    lay(table, Field::Ben, &[3, 58, 19, 26, 40])?;
    lay(table, Field::Cleo, &[9, 51, 22])
}

// How many bits a code has. No variable is wider than 65,536, so what is past 8,192 bytes is left out.
fn bits_of(code: &[u8]) -> usize
    ensures value { result ≡ 8 * min (length code.now) 8192 }
{
    8 * code.len().min(8192)
}

// The bytes of a code as a page for so many seats, on which the fields stand one after the other.
fn page(heap: Global, code: &mut [u8], seats: u32) -> Result<Page<'_>, AllocError> {
    let width = bits_of(code);
    let whole = Laid::new(heap, PackedBytes::new(code), &[width], &[seats])?;
    Ok(Window::new(whole, 0, &WIDTHS))
}

// Packs the fields that are played by the seats of a page, all or none.
fn pack<H: Host>(table: &H, page: &mut Page<'_>) -> Result<(), Fault> {
    packing::pack(table, page, fields::played(page.number(SEATS)?))?;
    Ok(())
}

// Prints each field of the table.
fn show_table<H: Host>(rt: &HostRuntime, table: &H) -> Result<(), Fault> {
    for field in fields::played(table.number(SEATS)?) {
        let text = told(rt.alloc(), table, *field)?;
        println!(rt; "   {:<17}{}", *field, text)?;
    }
    Ok(())
}

// Deals from a page, and prints each field beside what it was on the first table, and how many differ.
fn deal<H: Host>(rt: &HostRuntime, first: &H, page: &Page<'_>) -> Result<(), Fault> {
    let heap = rt.alloc();
    let mut differ = 0u32;
    for field in fields::played(page.number(SEATS)?) {
        let dealt = told(heap, page, *field)?;
        let before = told(heap, first, *field)?;
        if dealt != before {
            differ = differ.saturating_add(1);
        }
        println!(rt; "   {:<17}now   {dealt}", *field)?;
        println!(rt; "   {:<17}then  {before}", "")?;
    }
    println!(rt; "   {differ} fields differ.")?;
    Ok(())
}

// Packs two seats into a page that has room for no more, and then tries three.
fn try_small_page<H: Host>(rt: &HostRuntime, table: &H) -> Result<(), Fault> {
    let heap = rt.alloc();
    let mut code = [0; 18];
    pack(table, &mut page(heap, &mut code, 2)?)?;
    let before = codes::written(heap, &code)?;
    println!(rt; "   two seats:   {before}")?;
    match pack(table, &mut page(heap, &mut code, 3)?) {
        Err(Fault::Stopped(stopped)) => {
            let number = stopped.refusal.number();
            println!(rt;
                "   three seats: {} has no place, refused by {number}",
                stopped.field
            )?;
        }
        other => other?,
    }
    let after = codes::written(heap, &code)?;
    println!(rt; "   the page:    {after}")?;
    if before == after {
        println!(rt; "   Nothing on it has changed.")?;
    }
    Ok(())
}

pub fn play(rt: &HostRuntime) -> Result<(), Fault> {
    let heap = rt.alloc();
    let mut words = [0; 3];
    let mut table = Laid::new(heap, Words::new(&mut words), &WIDTHS, &[3])?;
    set_up(&mut table)?;
    println!(rt; "1. The evening ends. This is the table, with three seats:")?;
    show_table(rt, &table)?;

    let mut code = [0; 20];
    pack(&table, &mut page(heap, &mut code, 3)?)?;
    let text = codes::written(heap, &code)?;
    println!(rt; "2. It is packed into a code of 20 bytes. Copy it into the booklet:")?;
    println!(rt; "   {text}")?;

    let mut copied = codes::typed(heap, &text)?;
    println!(rt; "3. Weeks later another phone is given this code, and deals for three seats:")?;
    deal(rt, &table, &page(heap, &mut copied, 3)?)?;

    println!(rt; "4. A small page has room for nine groups, too few for three seats:")?;
    try_small_page(rt, &table)
}
