ghost use Rattle.std.specs.Prelude.{◌≡◌};

use ncs_code::CodeFault;
use nwq_value::NoMemory as OutOfMemory;
use std::alloc::{AllocError, AllocFailed};

/// Why bytes were not loaded: the first test that fails, in this order.
#[derive(Clone, Copy)]
pub enum LoadFault {
    /// The file does not begin with `NCS V1.0` and the byte 0x42.
    Magic,
    /// The length that the file gives is not its own.
    Length,
    /// No instruction begins at this place, the first where one had to.
    At(u32, CodeFault),
    /// The jump at this place, or the stored code of the STORE_STATE there, leads to no beginning
    /// of an instruction. It is the first such place.
    Target(u32),
    /// Memory ran out.
    NoMemory,
}

impl From<OutOfMemory> for LoadFault {
    ghost use Rattle.ncs_file.specs.declared.fault.LoadFault.TheVariants.{NoMemory};

    ghost from_gives = { λ _ fault. fault ≡ NoMemory };

    fn from(_error: OutOfMemory) -> LoadFault {
        LoadFault::NoMemory
    }
}

impl From<AllocError> for LoadFault {
    ghost use Rattle.ncs_file.specs.declared.fault.LoadFault.TheVariants.{NoMemory};

    ghost from_gives = { λ _ fault. fault ≡ NoMemory };

    fn from(_error: AllocError) -> LoadFault {
        LoadFault::NoMemory
    }
}

impl<T: Drop> From<AllocFailed<T>> for LoadFault {
    ghost use Rattle.ncs_file.specs.declared.fault.LoadFault.TheVariants.{NoMemory};

    ghost from_gives = { λ _ fault. fault ≡ NoMemory };

    fn from(_error: AllocFailed<T>) -> LoadFault {
        LoadFault::NoMemory
    }
}
