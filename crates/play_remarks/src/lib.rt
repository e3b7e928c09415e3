//! What is remarked of a play while it runs, for the notes after it: where an entry ended before
//! its end.
//!
//! Nothing that is told, written or answered depends on it. Where there is no memory for a remark,
//! it is left out. docs/MESSAGES.md tells the notes that are made of it.
#![tactic(auto)]

mod list;

pub use list::RemarkList;

/// Why an entry ended before its end.
#[derive(Clone, Copy, PartialEq, Eq)]
pub enum Ending {
    /// A division by 0, or a remainder of one.
    Divide,
    /// The limit of instructions was met.
    Limit,
}

/// A place in a script's code.
#[derive(Clone, Copy, PartialEq, Eq)]
pub struct Spot {
    /// The script's number among those of the play.
    pub script: u32,
    /// In bytes from the start of the script's file.
    pub place: u32,
}

/// Where an entry ended before its end.
#[derive(Drop)]
pub struct Remark {
    pub ending: Ending,
    /// The time of the play, in milliseconds.
    pub time: u32,
    /// The instruction at which it ended.
    pub at: Spot,
    /// The instructions behind the calls under way, innermost first.
    pub returns: Vec<Spot>,
    /// Where the entry began: a script's first instruction, or that of a deferred action, which
    /// stands 16 bytes behind the instruction that deferred it.
    pub begun: Spot,
    /// The integers, at most eight, that a deferred action began with, topmost last.
    pub values: Vec<i32>,
}
