// How many names a layout can have.
ghost use Rattle.layout_laws.specs.NamesOfLists.{NamesNeverRunOut, NamesStayTexts};

/// A 257th name cannot come, since there are 256 lists.
pub fn names_never_run_out()
    ensures law { NamesNeverRunOut }
{}

/// An accepted component leaves every name the text of a list, and none twice.
pub fn names_stay_texts()
    ensures law { NamesStayTexts }
{}
