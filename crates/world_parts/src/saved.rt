//! A world taken apart, to be saved, and put together again.
use delay_agenda::Agenda;
use nwq_value::Randoms;
use world_rules::Objects;

/// A world without its area, the lines that it keeps, and the running entry's user number. The
/// agenda has the number of the next post.
#[derive(Drop)]
pub struct WorldParts<X> {
    pub clock: u64,
    pub objects: Objects<X>,
    pub agenda: Agenda<X>,
    pub random: Randoms,
    pub version: u8,
}
