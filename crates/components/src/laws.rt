// What holds of the definitions.
ghost use Rattle.components.specs.Alignments.{overall, together};
ghost use Rattle.components.specs.Examples.{ExamplesHold};
ghost use Rattle.components.specs.declared.concatenation.FillerAlign.{FillerAlign as Align};
ghost use Rattle.components.specs.declared.concatenation.FillerAlign.TheVariants.{Single};
ghost use Rattle.std.specs.Prelude.{◌≡◌, List, fold};

/// The alignment of several concatenations is found one by one, from `Single` on, by `with`.
pub fn aligned_one_by_one()
    ensures law { (kinds : List Align) → fold together Single kinds ≡ overall kinds }
{}

/// Small cases of the definitions.
pub fn examples()
    ensures hold { ExamplesHold }
{}
