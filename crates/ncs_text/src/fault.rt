ghost use Rattle.std.specs.Prelude.{◌≡◌};

use nwq_value::NoMemory as OutOfMemory;
use std::alloc::AllocError;

/// Why a text has no file: the first test that fails, in this order.
#[derive(Clone, Copy)]
pub enum AsmFault {
    /// The line of this number is the first that is no line of an assembler text.
    Line(u64),
    /// The file would have so many bytes, more than a file may have.
    Large(u64),
    /// The jump in the line of this number, or the stored code of the STORE_STATE there, leads to
    /// no beginning of an instruction. It is the first such line.
    Target(u64),
    /// Memory ran out.
    NoMemory,
}

impl From<OutOfMemory> for AsmFault {
    ghost use Rattle.ncs_text.specs.declared.fault.AsmFault.TheVariants.{NoMemory};

    ghost from_gives = { λ _ fault. fault ≡ NoMemory };

    fn from(_error: OutOfMemory) -> AsmFault {
        AsmFault::NoMemory
    }
}

impl From<AllocError> for AsmFault {
    ghost use Rattle.ncs_text.specs.declared.fault.AsmFault.TheVariants.{NoMemory};

    ghost from_gives = { λ _ fault. fault ≡ NoMemory };

    fn from(_error: AllocError) -> AsmFault {
        AsmFault::NoMemory
    }
}
