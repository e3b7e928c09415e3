use nwq_value::NoMemory;

/// Why bytes are refused as a state.
#[derive(Clone, Copy, Debug, PartialEq, Eq)]
pub enum StateFault {
    /// The place at which they stop being those of a state.
    Place(u64),
    /// The number of the first rule that the state breaks, from 1 to 7.
    Unfit(u8),
    NoMemory,
}

impl From<NoMemory> for StateFault {
    ghost use Rattle.std.specs.Prelude.{◌≡◌};
    ghost use Rattle.play_save.specs.declared.fault.StateFault.TheVariants.{NoMemory as NoRoom};

    ghost from_gives = { λ _ e. e ≡ NoRoom };

    fn from(_error: NoMemory) -> StateFault {
        StateFault::NoMemory
    }
}
