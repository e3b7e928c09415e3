ghost use Rattle.std.specs.Prelude.{◌<◌, ◌≤◌, OnErr, OnOk};
ghost use Rattle.stack_lists.specs.Budget.{most, most_numbers};

use nwq_value::NoMemory;

/// So many nodes of lists of slots are kept, and so many rows. Past them the answer is want of
/// memory.
pub const MOST: usize = 1 << 25;

/// So many nodes of lists of another kind are kept: 32 bits have no further number, as 0 is that of
/// the empty list. Past them the answer is want of memory, too.
pub const MOST_NUMBERS: usize = u32::MAX as usize;

/// So many slots are put on other lists for calls and stored states, whether they take room or were
/// there before. Past them the answer is want of memory, too.
pub const MOST_COPIES: usize = 1 << 27;

/// Whether there is room for one more beside so many.
pub fn room(count: usize) -> Result<(), NoMemory>
    ensures room { OnOk result (count < most) }
    ensures full { OnErr result (most ≤ count) }
{
    if count < MOST { Ok(()) } else { Err(NoMemory) }
}

/// Whether there is a number for one more node beside so many.
pub fn number_left(count: usize) -> Result<(), NoMemory>
    ensures room { OnOk result (count < most_numbers) }
    ensures full { OnErr result (most_numbers ≤ count) }
{
    if count < MOST_NUMBERS {
        Ok(())
    } else {
        Err(NoMemory)
    }
}
