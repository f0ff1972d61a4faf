// The worked examples of specs/Examples, each the contract of a function.
ghost use Rattle.host_cases.specs.Examples.{LaidInAWord, PartsOfSeventy, Places, Shown, Widest};

/// Which variables have a place in one word, and where.
pub fn laid_in_a_word()
    ensures example { LaidInAWord }
{}

/// A variable of 65,536 bits, one that no longer fits, and one that does.
pub fn widest()
    ensures example { Widest }
{}

/// Parts of a variable of 70 bits, on both sides of each edge.
pub fn parts_of_seventy()
    ensures example { PartsOfSeventy }
{}

/// Which stored bit a place of a row is.
pub fn places()
    ensures example { Places }
{}

/// The bits of a variable in packed bytes.
pub fn shown()
    ensures example { Shown }
{}
