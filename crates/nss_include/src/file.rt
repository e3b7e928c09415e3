use nwq_value::Items;

/// A file of a unit, with its whole name.
#[derive(Drop)]
pub struct Source {
    pub name: Items<u8>,
    pub bytes: Items<u8>,
}
