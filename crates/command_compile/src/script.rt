ghost use Rattle.std.specs.Prelude.{◌<◌, length};

use nss_include::Unit;
use typing_rules::Typed;

/// A script's unit, and what it is typed as.
#[derive(Drop)]
pub struct TypedScript {
    pub unit: Unit,
    pub typed: Typed,
    // The script's own file is among the unit's.
    ghost some: { 0 < length unit.files },
}
