// Worked examples: the four keys in pools, and the width call.
use crate::*;
use pool::{Entry, Key, Number, Pool};

// Equal value and other width, a text and its front, and each again.
#[test]
fn bindings(rt: HostRuntime) {
    let bytes = b"abacab";
    let mut entries = [Entry::new(Bind::Literal { width: 1, value: 0 }, 0u8); 4];
    let mut pool: Pool<Bind, u8> = Pool::new(&mut entries);
    let narrow = pool.insert(bytes, Bind::Literal { width: 4, value: 5 }, 1);
    let wide = pool.insert(bytes, Bind::Literal { width: 8, value: 5 }, 2);
    let ab = pool.insert(bytes, Bind::Txt(Text { start: 0, len: 2 }), 3);
    let aba = pool.insert(bytes, Bind::Txt(Text { start: 0, len: 3 }), 4);
    assert_eq!(rt; narrow.index(), 0);
    assert_eq!(rt; wide.index(), 1);
    assert_eq!(rt; ab.index(), 2);
    assert_eq!(rt; aba.index(), 3);
    assert_eq!(rt;
        pool.find(bytes, Bind::Txt(Text { start: 4, len: 2 }), bytes),
        Some(ab)
    );
    assert_eq!(rt;
        pool.find(bytes, Bind::Literal { width: 4, value: 5 }, bytes),
        Some(narrow)
    );
    assert!(rt;
        pool.find(bytes, Bind::Literal { width: 4, value: 4 }, bytes)
            .is_none()
    );
}

// The width of a binding beside the same width asked for by text, and bounds that are equal in one part only.
#[test]
fn values(rt: HostRuntime) {
    let bytes = b"rs";
    let mut bound = [Entry::new(Bind::Literal { width: 1, value: 0 }, ()); 1];
    let mut bindings: Pool<Bind, ()> = Pool::new(&mut bound);
    let binding = bindings.insert(bytes, Bind::Txt(Text { start: 0, len: 1 }), ());
    let mut entries = [Entry::new(Value::Bitwidth(binding), ()); 4];
    let mut pool: Pool<Value, ()> = Pool::new(&mut entries);
    let r = Base::Named(Text { start: 0, len: 1 });
    let width = pool.insert(bytes, Value::Bitwidth(binding), ());
    let asked = pool.insert(
        bytes,
        Value::Usize {
            base: Base::Asked(binding),
            x: 0,
        },
        (),
    );
    let less = pool.insert(bytes, Value::Usize { base: r, x: -3 }, ());
    let more = pool.insert(bytes, Value::Usize { base: r, x: 3 }, ());
    assert_eq!(rt; width.index(), 0);
    assert_eq!(rt; asked.index(), 1);
    assert_eq!(rt; less.index(), 2);
    assert_eq!(rt; more.index(), 3);
    assert_eq!(rt;
        pool.find(bytes, Value::Usize { base: r, x: -3 }, bytes),
        Some(less)
    );
    assert!(rt;
        pool.find(
            bytes,
            Value::Usize {
                base: Base::Nothing,
                x: 3,
            },
            bytes,
        )
        .is_none()
    );
}

// A sum that begins another, and widths that differ in their start alone.
#[test]
fn sums(rt: HostRuntime) {
    let numbers = [1u16, 2, 1, 2, 3];
    let mut entries = [Entry::new(CWidth::new(0, 0), ()); 2];
    let mut pool: Pool<CWidth, ()> = Pool::new(&mut entries);
    let short = pool.insert(&numbers, CWidth::new(0, 2), ());
    let long = pool.insert(&numbers, CWidth::new(2, 3), ());
    assert_eq!(rt; short.index(), 0);
    assert_eq!(rt; long.index(), 1);
    assert_eq!(rt;
        pool.find(&numbers, CWidth::new(2, 2), &numbers),
        Some(short)
    );
}

// The call's own length is cut, whatever it is; a text that does not end in it asks for nothing.
#[test]
fn width_calls(rt: HostRuntime) {
    assert_eq!(rt; before_call(b"a.bw()", b".bw()"), Some(&b"a"[..]));
    assert_eq!(rt; before_call(b"a.len()", b".len()"), Some(&b"a"[..]));
    assert_eq!(rt; before_call(b"a.bw", b".bw()"), None);
    assert_eq!(rt; before_call(b".bw()", b".bw()"), Some(&b""[..]));
}
