//! The names that many rows are over, and what they hold.

use crate::answers::Named;
use crate::contents;

/// Names that rows are over.
#[derive(Clone, Copy)]
pub enum Base {
    Nothing,
    /// What scripts may include.
    Includes,
    /// The example `examples/module`.
    Module,
    /// A plan of two scripts, of which one has an include, and of a binary, under a header.
    Three,
    /// Two heartbeats of a guard.
    Rounds,
    /// A script with an include under a header.
    Script,
    /// A play that is saved beside an older state.
    Saved,
    /// A play in which much is due.
    Busy,
    /// A plan, an area, and a table that a list names.
    Cells,
    /// Two scripts.
    Two,
    /// Plans with random numbers.
    Randoms,
    /// A script that divides by 0.
    Divided,
    /// The example `examples/town`.
    Town,
}

/// These names, but those of the town.
pub fn files_of(base: Base) -> &'static [Named<'static>] {
    match base {
        Base::Nothing | Base::Town => &[],
        Base::Includes => contents::INCLUDES,
        Base::Module => contents::MODULE,
        Base::Three => contents::THREE,
        Base::Rounds => contents::ROUNDS,
        Base::Script => contents::SCRIPT,
        Base::Saved => contents::SAVED,
        Base::Busy => contents::BUSY,
        Base::Cells => contents::CELLS,
        Base::Two => contents::TWO,
        Base::Randoms => contents::RANDOMS,
        Base::Divided => contents::DIVIDED,
    }
}
