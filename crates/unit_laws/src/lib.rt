//! Laws about the code of typed units: its values have their types, and its file loads and passes
//! the checker.
//!
//! There is no code here that runs. The laws of typed units and those of emitted code are joined:
//! a unit that is typed under a header, of a tree that some tokens have, is as the shapes of its
//! code need it, so some table of shapes meets the rules. Nothing is asked of the files that the
//! tokens stand in. The pages on it are docs/CODE.md and docs/SHAPES.md.
#![tactic(auto)]

ghost use Rattle.unit_laws.specs.Laws.{TypedUnitsAreWellTyped, TypedUnitsPass};

use emission_laws::{typed_units_fit, units_are_well_stacked};
use emission_rules::laws::file_is_code;
use ncs_code::size_laws;
use typed_laws::{entries_are_plain, functions_are_placed, globals_are_fine};

/// The values of a typed unit have the types that stand at their nodes, as the shapes of its code
/// need it.
pub fn typed_units_are_well_typed()
    ensures typed { TypedUnitsAreWellTyped }
{
    functions_are_placed();
    globals_are_fine();
    entries_are_plain();
    typed_units_fit();
}

/// The file of a typed unit is one that loads, with the instructions of its code, if it is not too
/// large, and these are well stacked under its header.
pub fn typed_units_pass()
    ensures pass { TypedUnitsPass }
{
    typed_units_are_well_typed();
    units_are_well_stacked();
    file_is_code();
    size_laws();
}
