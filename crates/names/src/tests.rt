// A small table of names.
use crate::*;
use std::test::Fail;

#[test]
fn a_known_name_keeps_its_number(rt: HostRuntime) -> Result<(), Fail> {
    let mut names = NameTable::new(rt.alloc())?;
    let width = names.insert(b"width");
    let value = names.insert(b"value");
    let again = names.insert(b"width");
    assert_eq!(rt; width, PName(0));
    assert_eq!(rt; value, PName(1));
    assert_eq!(rt; again, width);
    assert_eq!(rt; names.len(), 2);
    assert_eq!(rt; names.bytes_len(), 10);
    Ok(())
}

#[test]
fn the_front_of_a_name_is_another_name(rt: HostRuntime) -> Result<(), Fail> {
    let mut names = NameTable::new(rt.alloc())?;
    let wide = names.insert(b"wider");
    let front = names.insert(b"wide");
    assert!(rt; names.text(wide) == b"wider".as_slice());
    assert!(rt; names.text(front) == b"wide".as_slice());
    assert_eq!(rt; names.find(b"wide"), Some(front));
    assert!(rt; names.find(b"wid").is_none());
    Ok(())
}
