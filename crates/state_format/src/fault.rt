use nwq_value::NoMemory;

/// Why bytes aren't those of a state: the place up to which they begin as those of one do.
#[derive(Clone, Copy)]
pub enum ReadFault {
    Place(u64),
    NoMemory,
}

/// Why a state isn't written: how many bytes it has, where these are more than a file may have.
#[derive(Clone, Copy)]
pub enum SaveFault {
    Large(u64),
    NoMemory,
}

/// Why a field isn't read: how many bytes are left where no such field stands.
#[derive(Clone, Copy)]
pub(crate) enum Stop {
    Left(usize),
    NoMemory,
}

impl From<NoMemory> for SaveFault {
    ghost use Rattle.std.specs.Prelude.{◌≡◌};
    ghost use Rattle.state_format.specs.declared.fault.SaveFault.TheVariants.{NoMemory as NoRoom};

    ghost from_gives = { λ _ e. e ≡ NoRoom };

    fn from(_error: NoMemory) -> SaveFault {
        SaveFault::NoMemory
    }
}

impl From<NoMemory> for Stop {
    ghost use Rattle.std.specs.Prelude.{◌≡◌};
    ghost use Rattle.state_format.specs.declared.fault.Stop.TheVariants.{NoMemory as NoRoom};

    ghost from_gives = { λ _ e. e ≡ NoRoom };

    fn from(_error: NoMemory) -> Stop {
        Stop::NoMemory
    }
}
