use nwq_value::NoMemory;
use std::alloc::AllocFailed;

/// Why a tree is no area: the first place at which it breaks the rules. Lists have the numbers 0 to
/// 4, members and entries count from 1, and 0 says that the fault lies above them.
#[derive(Clone, Copy)]
pub enum AreaFault {
    Shape { list: u8, member: u32, entry: u32 },
    NoMemory,
}

impl From<NoMemory> for AreaFault {
    ghost use Rattle.std.specs.Prelude.{◌≡◌};
    ghost use Rattle.area_rules.specs.declared.fault.AreaFault.TheVariants.{NoMemory as NoRoom};

    ghost from_gives = { λ _ e. e ≡ NoRoom };

    fn from(_error: NoMemory) -> AreaFault {
        AreaFault::NoMemory
    }
}

impl<T: Drop> From<AllocFailed<T>> for AreaFault {
    ghost use Rattle.std.specs.Prelude.{◌≡◌};
    ghost use Rattle.area_rules.specs.declared.fault.AreaFault.TheVariants.{NoMemory as NoRoom};

    ghost from_gives = { λ _ e. e ≡ NoRoom };

    fn from(_error: AllocFailed<T>) -> AreaFault {
        AreaFault::NoMemory
    }
}
