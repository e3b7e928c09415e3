//! The play of the example `examples/saved`, resumed from its state.

ghost use Rattle.std.specs.Prelude.{◌≤◌};
ghost use Rattle.hook_table.specs.InHooks.{known_by};
ghost use Rattle.world_core.specs.Calls.{AreServing};

use crate::going::{go_on_from, is_written};
use crate::noon::{STATE, TRACE};
use hook_table::Hooks;
use module_player::How;
use nwq_outside::MemSink;
use nwq_value::FILE_BYTES;
use play_save::{State, read_state};
use std::alloc::Global;

/// Whether the play goes on as it is to.
fn is_played(alloc: Global, state: State, hooks: &Hooks) -> bool
    requires hooks { AreServing (known_by hooks.now) }
{
    let mut out = MemSink::new(alloc);
    match go_on_from(alloc, state, hooks, &mut out) {
        None => false,
        Some(played) => {
            played.how == How::Done
                && played.entries == 10
                && played.instructions == 187
                && out.bytes() == TRACE.as_bytes()
        }
    }
}

/// Whether the state is read, written again, and resumed.
pub fn is_resumed(alloc: Global, hooks: &Hooks) -> bool
    requires hooks { AreServing (known_by hooks.now) }
{
    if STATE.len() > FILE_BYTES {
        return false;
    }
    match read_state(alloc, STATE) {
        Err(_) => false,
        Ok(state) => {
            let written = is_written(alloc, &state, STATE);
            is_played(alloc, state, hooks) && written
        }
    }
}
