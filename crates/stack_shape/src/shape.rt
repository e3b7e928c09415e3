use nwq_value::{Items, Ty};

/// What is known of a cell: the type of its value, or that SAVEBP has made it to keep the old BP.
#[derive(Clone, Copy, Debug, PartialEq, Eq)]
pub enum Slot {
    Of(Ty),
    Base,
}

/// Cells of the stack, the lowest first: the top one is last.
pub type Slots = Items<Slot>;

/// Lists of slots, the newest last.
pub type Unders = Items<Slots>;

/// What is known of the stack at a place of a routine.
#[derive(Drop)]
pub struct Shape {
    /// The cells that the routine found on top when it began, and those that it has pushed since.
    pub cells: Slots,
    /// The cells beneath BP that an offset from BP may reach.
    pub under: Slots,
    /// For each SAVEBP of the routine that no RESTOREBP has ended yet: what was beneath BP before
    /// it.
    pub saved: Unders,
    /// How many states the routine has stored that no engine call has taken yet.
    pub pending: u32,
}

/// How control comes to a routine: as the script's start, by a call of the place, or by resuming
/// the state that the instruction at this place stored.
#[derive(Clone, Copy, PartialEq, Eq)]
pub enum Entry {
    Start,
    Called(u32),
    Stored(u32),
}
