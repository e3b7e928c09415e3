//! Laws about the definitions, each the contract of a function that does nothing.
ghost use Rattle.emission_laws.specs.Laws.{FirstValuesCallEngine, SwitchesFit};
ghost use Rattle.emission_laws.specs.Laws.{UnitsAreWellStacked};

use emission_rules::laws::{code_stands, each_placed_once};
use ncs_code::size_laws;

/// The code of a unit that keeps the bounds and whose values have their types is well stacked:
/// under each header some table of shapes meets the rules for it.
pub fn units_are_well_stacked()
    ensures stacked { UnitsAreWellStacked }
{
    size_laws();
    each_placed_once();
    code_stands();
}

/// The switches of a typed unit fit, and the first values of its globals call no function of the
/// unit.
pub fn typed_units_fit()
    ensures switches { SwitchesFit }
    ensures values { FirstValuesCallEngine }
{}
