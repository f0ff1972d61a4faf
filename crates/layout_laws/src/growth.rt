// How the concatenations of a layout grow.
ghost use Rattle.layout_laws.specs.Growth.{AddedToTheLast, BegunEmpty};

/// A component comes to the end of the last concatenation, and no other one changes.
pub fn added_to_the_last()
    ensures law { AddedToTheLast }
{}

/// A new concatenation is empty, and changes none of the others.
pub fn begun_empty()
    ensures law { BegunEmpty }
{}
