//! How many structs, declarations and variables of a unit are kept. Past a budget a call answers as
//! for want of memory; no unit within the limit of tokens passes one.

ghost use Rattle.std.specs.Prelude.{◌≤◌, ◌<◌, OnErr, OnOk};

use nwq_value::NoMemory;

/// So many structs have a number of 16 bits.
pub const STRUCTS: usize = 65_536;

/// So many declarations of functions have a number of 32 bits.
pub const HEADS: usize = 4_294_967_295;

/// So many variables have a number of 32 bits.
pub const VARIABLES: usize = 4_294_967_295;

/// That one more is within a budget. It fails exactly where the budget is spent.
pub fn one_more(count: usize, budget: usize) -> Result<(), NoMemory>
    ensures within { OnOk result (count < budget) }
    ensures spent { OnErr result (budget ≤ count) }
{
    if count < budget {
        Ok(())
    } else {
        Err(NoMemory)
    }
}
