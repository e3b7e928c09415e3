use nwq_value::Items;

/// What stands under a name.
#[derive(Drop)]
pub enum Node {
    /// A regular file: its mode and its bytes.
    File(u32, Items<u8>),
    /// A link, with its text.
    Link(Items<u8>),
    /// What is written into as it is, with what a read of it gives.
    Device(Items<u8>),
}
