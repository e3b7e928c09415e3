use area_tree::Area;
use delay_agenda::Entry;
use ncs_machine::Loaded;
use saved_state::Saved;
use world_rules::Things;

/// How far a play has come: how many entries it took, and how many instructions it executed.
#[derive(Clone, Copy)]
pub(crate) struct PlayCounts {
    pub taken: u64,
    pub done: u64,
}

/// The numbers of a play that stand in a row: its version, limits, clock and counts.
#[derive(Clone, Copy)]
pub(crate) struct Numbers {
    pub version: u8,
    pub limit: u64,
    pub entries: u64,
    pub until: u64,
    pub clock: u64,
    pub taken: u64,
    pub done: u64,
    pub next: u64,
}

/// What a state has of a play, lent as it stands in the play: the header's bytes, where there are
/// any, the scripts, the area's file as it was first read, numbers, the random numbers left, the
/// objects of the area with what is kept beside it, and the entries that wait.
#[derive(Clone, Copy)]
pub(crate) struct Resting<'a> {
    pub header: &'a Option<Vec<u8>>,
    pub scripts: &'a [Loaded],
    pub file: &'a [u8],
    pub numbers: Numbers,
    pub random: &'a [u32],
    pub area: &'a Area,
    pub things: &'a [Things<Saved>],
    pub entries: &'a [Entry<Saved>],
}
