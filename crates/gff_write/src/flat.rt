//! The tree as a list of its structs in preorder, as `specs/File.antt` speaks of it.

use nwq_value::Items;

/// What a field holds, by what the third number of its row tells.
#[derive(Drop)]
pub enum Content {
    /// The number itself: a value of at most four bytes.
    Small(u32),
    /// The place of these bytes in the field data.
    Data(Items<u8>),
    /// The number of a struct, in preorder.
    Number(u64),
    /// The place, in the list indices, of the numbers of these structs behind their count.
    Numbers(Items<u64>),
}

/// A field.
#[derive(Drop)]
pub struct Entry {
    /// Its label, filled up with zero bytes.
    pub label: [u8; 16],
    /// The number of its type, 0 to 15.
    pub kind: u32,
    pub content: Content,
}

/// A struct.
#[derive(Drop)]
pub struct FlatStruct {
    /// Its type, as the tree gives it.
    pub kind: u32,
    pub fields: Items<Entry>,
}
