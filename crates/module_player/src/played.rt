/// How a play ends.
#[derive(Clone, Copy, PartialEq, Eq)]
pub enum How {
    /// No further entry is due.
    Done,
    /// An entry was stopped at the limit of its instructions.
    InstrStop,
    /// As many entries were taken as may be, and a further one is due.
    EntryStop,
    /// As many entries were taken as were asked for: the play can go on.
    Pause,
    /// The sink failed.
    Fault,
    NoMemory,
}

/// What came of a play: how it ended, how many entries were taken, and how many instructions all of
/// them took.
#[derive(Clone, Copy)]
pub struct Played {
    pub how: How,
    pub entries: u64,
    pub instructions: u64,
}
