ghost use Rattle.std.specs.Prelude.{◌≡◌};
ghost use Rattle.table_2da.specs.declared.fault.TableFault.TheVariants.{NoMemory as OutOfMemory};

use nwq_value::NoMemory;

/// Why there is no table.
#[derive(Clone, Copy, Debug, PartialEq, Eq)]
pub enum TableFault {
    /// The first line that breaks a rule, counted from 1. Of the first three lines also one that is
    /// missing.
    Line(u64),
    NoMemory,
}

impl From<NoMemory> for TableFault {
    ghost from_gives = { λ _ e. e ≡ OutOfMemory };

    fn from(_error: NoMemory) -> TableFault {
        TableFault::NoMemory
    }
}
