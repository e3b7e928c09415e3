ghost use Rattle.std.specs.Prelude.{◌≤◌};
ghost use Rattle.nwq_value.specs.Limits.{entry_limit, instruction_limit, time_limit};

/// How far a play may go, inside what plans may set.
#[derive(Clone, Copy)]
pub struct PlayLimits {
    /// The instructions that an entry may take.
    pub instructions: u64,
    /// The entries that may be taken in all.
    pub entries: u64,
    /// The time by which an entry must be due.
    pub until: u64,
    // Inside what a plan may set: who holds limits knows it.
    pub ghost some_instructions: { 1 ≤ instructions },
    pub ghost few_instructions: { instructions ≤ instruction_limit },
    pub ghost some_entries: { 1 ≤ entries },
    pub ghost few_entries: { entries ≤ entry_limit },
    pub ghost early: { until ≤ time_limit },
}
