//! Laws about the definitions, each the contract of a function that does nothing.
ghost use Rattle.typed_laws.specs.Laws.{EntriesArePlain, FunctionsArePlaced, GlobalsAreFine};
ghost use Rattle.typed_laws.specs.Laws.{UnitsAreReady};

use emission_rules::laws::positions_by_number;
use nwq_value::header::roles_tell;
use source_laws::functions_stand;
use typing_rules::laws::{items_are_right, numbered_in_order};

/// Each function of a typed unit stands at its label, and what its statements hold is as its types
/// say, at the depth that they have in the code.
pub fn functions_are_placed()
    ensures placed { FunctionsArePlaced }
{
    items_are_right();
    numbered_in_order();
    positions_by_number();
    functions_stand();
    roles_tell();
}

/// The globals of a typed unit are as the laws of its start ask.
pub fn globals_are_fine()
    ensures fine { GlobalsAreFine }
{
    items_are_right();
    numbered_in_order();
    positions_by_number();
    roles_tell();
}

/// The function that a typed unit begins with takes nothing: `main` gives nothing, and
/// `StartingConditional` an int.
pub fn entries_are_plain()
    ensures plain { EntriesArePlain }
{
    items_are_right();
}

/// A typed unit is as the laws of its meaning ask of a script: it begins with one of the two entry
/// functions, its globals are fine, and its functions are placed.
pub fn units_are_ready()
    ensures ready { UnitsAreReady }
{
    items_are_right();
    numbered_in_order();
    positions_by_number();
    functions_stand();
    roles_tell();
}
