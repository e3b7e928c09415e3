//! Laws, each the contract of a function that does nothing.

ghost use Rattle.local_variables.specs.Laws.{PutIsFound, DroppedIsGone, SameIsEquivalence};
ghost use Rattle.local_variables.specs.Laws.{PutIsThere, PutKeepsDistinct, FilterKeepsDistinct};

/// A change of one variable leaves every other as it was.
pub fn variables_stay()
    ensures put { PutIsFound }
    ensures dropped { DroppedIsGone }
{}

/// Variables of one type and name are alike in all that is asked of these, and a list in which no
/// two are so stays one where a variable is put or some are taken out.
pub fn variables_tell()
    ensures same { SameIsEquivalence }
    ensures there { PutIsThere }
    ensures put { PutKeepsDistinct }
    ensures filter { FilterKeepsDistinct }
{}
