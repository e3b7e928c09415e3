//! A law about states, as the contract of a function that does nothing.
ghost use Rattle.play_save.specs.Written.{CodeIsBytes, PlaysHaveStates};

use engine_table::laws::one_header;
use ncs_code::{size_laws, spelling_laws};

/// There is a state of each play that rests between two of its entries, where each number and text
/// of its world has a field that holds it. The state can be written where it is no larger than a
/// file may be.
pub fn plays_have_states()
    ensures states { PlaysHaveStates }
{
    one_header();
    spelling_laws();
    size_laws();
}

/// The file of code is bytes.
pub fn code_is_bytes()
    ensures bytes { CodeIsBytes }
{
    size_laws();
}
