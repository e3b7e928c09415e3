ghost use Rattle.std.specs.Prelude.{◌≡◌};
ghost use Rattle.nss_include.specs.declared.fault.GatherFault.TheVariants.{NoMemory as OutOfMemory};

use nwq_value::{NoMemory, Text};

/// A place of a unit: the name of its file, its line and its offset in the file.
#[derive(Drop)]
pub struct Spot {
    pub name: Text,
    pub line: u32,
    pub at: u32,
}

/// Why there is no unit.
#[derive(Drop)]
pub enum GatherFault {
    /// No file is under this name.
    Missing(Text),
    /// The outside failed.
    Fault,
    /// The file of this name is too long.
    Long(Text),
    /// No token, blank or closed comment begins at this place.
    Bad(Spot),
    /// The count of tokens passes its limit by what stands at this place.
    Tokens(Spot),
    /// The directive at this place names no include.
    Include(Spot),
    NoMemory,
}

impl From<NoMemory> for GatherFault {
    ghost from_gives = { λ _ e. e ≡ OutOfMemory };

    fn from(_error: NoMemory) -> GatherFault {
        GatherFault::NoMemory
    }
}
