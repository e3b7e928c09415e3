/// The numbers of a state that stand in a row: its version, limits, clock and counts.
#[derive(Clone, Copy)]
pub struct Counts {
    pub version: u8,
    pub limit: u64,
    pub entries: u64,
    pub until: u64,
    pub clock: u64,
    pub taken: u64,
    pub done: u64,
    pub next: u64,
}
