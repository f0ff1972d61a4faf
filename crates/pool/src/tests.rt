// Two small keys, and pools of them.
ghost use Rattle.std.specs.Prelude.{ℕ};
ghost use Rattle.pool.specs.Words.{by_number};
ghost use Rattle.std.proofs.Common.{rules};

use crate::*;
use std::cmp::Ordering;

// A number, with no parts.
#[derive(Clone, Copy)]
struct Plain(u32);

impl Key for Plain {
    type Part = ();

    type Number = PVal;

    ghost Meaning = { ℕ };

    ghost meaning = { λ k _. k.0 };

    ghost order = { by_number };

    ghost reach = { λ _. 0 };

    ghost orders = { Prim.search rules };

    ghost stays = { Prim.search rules };

    fn compare(&self, _own: &[()], other: &Plain, _others: &[()]) -> Ordering {
        self.0.cmp(&other.0)
    }

    fn moved(self, _by: usize) -> Plain {
        self
    }
}

// A text: a word of bytes.
type Text = Word<u8, PBind>;

#[test]
fn a_known_key_keeps_its_number_and_marks(rt: HostRuntime) {
    let mut entries = [Entry::new(Plain(0), 0u8); 3];
    let mut pool: Pool<Plain, u8> = Pool::new(&mut entries);
    let a = pool.insert(&[], Plain(7), 1);
    let b = pool.insert(&[], Plain(3), 2);
    let again = pool.insert(&[], Plain(7), 3);
    assert_eq!(rt; a.index(), 0);
    assert_eq!(rt; b.index(), 1);
    assert_eq!(rt; again.index(), 0);
    assert_eq!(rt; pool.marks(again), 1);
    assert_eq!(rt; pool.len(), 2);
}

#[test]
fn marks_are_set(rt: HostRuntime) {
    let mut entries = [Entry::new(Plain(0), 0u8); 1];
    let mut pool: Pool<Plain, u8> = Pool::new(&mut entries);
    let a = pool.insert(&[], Plain(7), 1);
    pool.set_marks(a, 9);
    assert_eq!(rt; pool.marks(a), 9);
    assert!(rt; pool.find(&[], Plain(5), &[]).is_none());
}

#[test]
fn the_front_of_a_text_is_another_text(rt: HostRuntime) {
    let parts = b"abaab";
    let mut entries = [Entry::new(Text::new(0, 0), ()); 3];
    let mut pool: Pool<Text, ()> = Pool::new(&mut entries);
    let aba = pool.insert(parts, Text::new(0, 3), ());
    let ab = pool.insert(parts, Text::new(0, 2), ());
    let again = pool.insert(parts, Text::new(3, 2), ());
    assert_eq!(rt; aba.index(), 0);
    assert_eq!(rt; ab.index(), 1);
    assert_eq!(rt; again, ab);
}

#[test]
fn texts_differ_in_one_byte(rt: HostRuntime) {
    let parts = b"abac";
    let mut entries = [Entry::new(Text::new(0, 0), ()); 2];
    let mut pool: Pool<Text, ()> = Pool::new(&mut entries);
    let ac = pool.insert(parts, Text::new(2, 2), ());
    let ab = pool.insert(parts, Text::new(0, 2), ());
    assert_ne!(rt; ab, ac);
    assert_eq!(rt; pool.find(parts, Text::new(0, 2), b"ac"), Some(ac));
}

#[test]
fn parts_of_a_known_key_are_not_stored(rt: HostRuntime) {
    let mut bytes = [0u8; 4];
    let mut entries = [Entry::new(Text::new(0, 0), 0u8); 2];
    let mut parts = Parts::new(&mut bytes);
    let mut pool: Pool<Text, u8> = Pool::new(&mut entries);
    let b = pool.insert_stored(&mut parts, Text::new(0, 1), b"b", 1);
    let again = pool.insert_stored(&mut parts, Text::new(1, 1), b"ab", 2);
    assert_eq!(rt; again, b);
    assert_eq!(rt; parts.stored().len(), 1);
}
