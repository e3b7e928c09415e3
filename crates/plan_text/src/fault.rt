ghost use Rattle.std.specs.Prelude.{◌≡◌};
ghost use Rattle.plan_text.specs.declared.fault.PlanFault.TheVariants.{NoMemory as OutOfMemory};

use nwq_value::NoMemory;

/// Why there is no plan.
#[derive(Clone, Copy, Debug, PartialEq, Eq)]
pub enum PlanFault {
    /// The first line without a reading, counted from 1.
    Line(u64),
    NoMemory,
}

impl From<NoMemory> for PlanFault {
    ghost from_gives = { λ _ e. e ≡ OutOfMemory };

    fn from(_error: NoMemory) -> PlanFault {
        PlanFault::NoMemory
    }
}
