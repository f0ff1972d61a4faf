// What holds of every layout.
ghost use Rattle.layout.specs.Starts.{Begun};
ghost use Rattle.names.specs.Names.{total};
ghost use Rattle.pool.specs.Firsts.{Once};
ghost use Rattle.pool.specs.Words.{by_word};
ghost use Rattle.std.specs.Prelude.{◌≡◌, ◌≤◌, true, length};
ghost use Rattle.texts.specs.Tokens.{Sorted, every_child_above};

use crate::ast::Layout;

/// Concatenations stand one after the other, at most 16 of them, and each has at most 32 components.
pub fn begun_in_order(layout: &Layout)
    ensures begun { Begun layout.now.starts (length layout.now.components) }
{
    let _ = &layout.starts;
}

/// There are at most 1,024 items, sorted by list, and the child of each group has a greater number than the list that it stands in.
pub fn items_in_order(layout: &Layout)
    ensures few { length layout.now.lists ≤ 1024 }
    ensures sorted { Sorted layout.now.lists }
    ensures above { every_child_above layout.now.lists ≡ true }
{
    let _ = &layout.texts;
}

/// There are at most 256 names, of at most 16,384 bytes together, and no two of them are the same.
pub fn names_in_order(layout: &Layout)
    ensures few { length layout.now.names ≤ 256 }
    ensures small { total layout.now.names ≤ 16384 }
    ensures once { Once by_word layout.now.names }
{
    let _ = &layout.names;
}
