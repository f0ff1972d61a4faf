// Worked examples: a description from its start.
use crate::*;
use components::{Component, ComponentType, Usb, Usbr};
use layout::{Around, CodeGen, FnNames, Names, Room};
use std::test::Fail;

fn handed() -> Handed<'static> {
    let around = Around {
        before: b"",
        after: b"",
    };
    Handed {
        names: Names {
            constant: b"C",
            bind: b"b",
            value: b"v",
            width: b"w",
            cw: b"cw",
            bits_ref: b"r",
            awi: b"awi",
            awi_ref: b"awi_ref",
            shl: b"shl",
            res: b"res",
        },
        fn_names: FnNames {
            get_bw: b"bw",
            mut_bits_ref: b"bits_mut",
            bits_ref: b"bits",
            usize_cast: b"cast",
            usize_add: b"add",
            usize_sub: b"sub",
            max_fn: b"max",
            cc_checks_fn: b"checks",
            copy_: b"copy",
            field: b"field",
            field_to: b"field_to",
            field_from: b"field_from",
            field_width: b"field_width",
            field_bit: b"field_bit",
            bw_call: b".bw()",
        },
        code_gen: CodeGen {
            must_use: around,
            static_construction_fn: around,
            lit_construction_fn: around,
            construction_fn: around,
            const_wrapper: around,
        },
    }
}

// A variable of full range, which has to be named before it is used.
#[test]
fn descriptions(rt: HostRuntime) -> Result<(), Fail> {
    let heap = rt.alloc();
    let room = Room::new(heap)?;
    let mut lending = Lending::new(heap, &Counts::least())?;
    let memory = lending.memory();
    let handed = handed();
    check_start(&memory, &handed)?;
    let mut open = Open::start(room, memory, handed);
    let zero = Some(Usb { s: None, x: 0 });
    let whole = Component {
        c_type: ComponentType::Variable(3),
        range: Usbr {
            start: zero,
            end: None,
        },
    };
    open.text(3, b"a")?;
    assert!(rt; open.component(whole).is_err());
    open.concatenation()?;
    open.component(whole)?;
    assert!(rt; open.text(3, b"b").is_err());
    Ok(())
}

// One sum less than has to be lent, and a name that has an opening parenthesis.
#[test]
fn refused_starts(rt: HostRuntime) -> Result<(), Fail> {
    let mut counts = Counts::least();
    counts.sums = 15;
    let mut lending = Lending::new(rt.alloc(), &counts)?;
    let memory = lending.memory();
    assert_eq!(rt; memory.sums.len(), 15);
    assert!(rt; check_start(&memory, &handed()).is_err());
    let mut fn_names = handed().fn_names;
    assert!(rt; fn_names.fit());
    fn_names.get_bw = b"bw(";
    assert!(rt; !fn_names.fit());
    Ok(())
}
