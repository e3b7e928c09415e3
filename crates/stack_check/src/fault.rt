ghost use Rattle.std.specs.Prelude.{◌≡◌};

use nwq_value::NoMemory as OutOfMemory;

/// Why code was not passed.
#[derive(Clone, Copy, Debug, PartialEq, Eq)]
pub enum CheckFault {
    /// No table of shapes meets the rules.
    Unstacked,
    /// Memory ran out.
    NoMemory,
}

impl From<OutOfMemory> for CheckFault {
    ghost use Rattle.stack_check.specs.declared.fault.CheckFault.TheVariants.{NoMemory};

    ghost from_gives = { λ _ fault. fault ≡ NoMemory };

    fn from(_error: OutOfMemory) -> CheckFault {
        CheckFault::NoMemory
    }
}
