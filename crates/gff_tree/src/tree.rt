ghost use Rattle.std.specs.Prelude.{IsTrue};
ghost use Rattle.gff_tree.specs.Tree.{is_sound, plain_node};

use crate::label::Label;
use nwq_value::Items;
use shared_bytes::SharedBytes;

/// A list of bytes of any length.
pub type Blob = Items<u8>;

/// A text in one language: the language and gender as the format numbers them, and its bytes.
#[derive(Drop)]
pub struct LocPart {
    pub id: i32,
    pub text: Blob,
}

/// The texts of a localized string, one for each language.
pub type Parts = Items<LocPart>;

/// A localized string: a number in the talk table, and texts of its own.
#[derive(Drop)]
pub struct Loc {
    pub str_ref: u32,
    pub parts: Parts,
}

/// What a field holds, by the sixteen types of the format.
#[derive(Drop)]
#[cycle(tree)]
pub enum Leaf {
    Byte(u8),
    Char(i8),
    Word(u16),
    Short(i16),
    Dword(u32),
    Int(i32),
    Dword64(u64),
    Int64(i64),
    Float([u8; 4]),
    Double([u8; 8]),
    Str(SharedBytes),
    Res(Blob),
    Loc(Loc),
    Void(Blob),
    Struct(Box<Node>),
    List(Vec<Node>),
}

/// A field of a struct.
#[derive(Drop)]
#[cycle(tree)]
pub struct Field {
    pub label: Label,
    pub leaf: Leaf,
}

/// A struct: its type and its fields in order.
#[derive(Drop)]
#[cycle(tree)]
pub struct Node {
    pub kind: u32,
    pub fields: Vec<Field>,
}

/// A file: what kind of file it is, and its top struct. In every value the structs are at most 64
/// deep, the labels of a struct's fields differ, and the name of a resource has at most 16 bytes.
#[derive(Drop)]
pub struct Gff {
    pub file_type: [u8; 4],
    pub top: Node,
    pub ghost sound: { IsTrue (is_sound (plain_node top)) },
}
