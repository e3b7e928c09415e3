ghost use Rattle.std.specs.Prelude.{◌≡◌};

use nwq_value::NoMemory as OutOfMemory;
use std::alloc::AllocError;

/// Why a file was not made.
#[derive(Clone, Copy)]
pub enum EmitFault {
    /// The file would have so many bytes, more than a file may have.
    Large(u64),
    /// Memory ran out.
    NoMemory,
}

impl From<OutOfMemory> for EmitFault {
    ghost use Rattle.ncs_emit.specs.declared.fault.EmitFault.TheVariants.{NoMemory};

    ghost from_gives = { λ _ fault. fault ≡ NoMemory };

    fn from(_error: OutOfMemory) -> EmitFault {
        EmitFault::NoMemory
    }
}

impl From<AllocError> for EmitFault {
    ghost use Rattle.ncs_emit.specs.declared.fault.EmitFault.TheVariants.{NoMemory};

    ghost from_gives = { λ _ fault. fault ≡ NoMemory };

    fn from(_error: AllocError) -> EmitFault {
        EmitFault::NoMemory
    }
}
