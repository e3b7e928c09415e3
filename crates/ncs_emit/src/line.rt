ghost use Rattle.std.specs.Prelude.{◌≡◌, ◌≤◌, ◌+◌, OnOk};
ghost use Rattle.std.specs.Vec.{vec_capacity, vec_len};
ghost use Rattle.nwq_value.specs.Limits.{file_limit};

use crate::jump::Jump;
use nwq_value::{FILE_BYTES, NoMemory};

/// How many bytes a jump takes.
pub const JUMP_BYTES: u32 = 6;

/// What is kept of a line of labelled code.
#[derive(Clone, Copy)]
pub enum Kept {
    /// The next so many bytes of the spellings are an instruction.
    Instruction(u32),
    Jump(Jump, u32),
    Label(u32),
}

/// Makes room for so many lines, if a file of this size is not too large to be kept.
pub fn make_room(kept: &mut Vec<Kept>, lines: usize, size: u64) -> Result<(), NoMemory>
    ensures same { kept.new.items ≡ kept.old.items }
    ensures capacity { vec_capacity kept.old ≤ vec_capacity kept.new }
    ensures room { OnOk result (size ≤ file_limit → vec_len kept.new + lines ≤
        vec_capacity kept.new) }
{
    if size <= FILE_BYTES as u64 {
        kept.reserve(lines)?;
    }
    Ok(())
}
