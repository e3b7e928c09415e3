/// The six sections of a file, in the order in which the header names them.
#[derive(Clone, Copy)]
pub enum Part {
    Struct,
    Field,
    Label,
    Data,
    Index,
    List,
}

/// Where a file has nothing: a row number of the first three sections, or a byte offset into one of
/// the others.
#[derive(Clone, Copy)]
pub struct Range {
    pub part: Part,
    pub at: u32,
}

/// Why bytes are no GFF file: too short for a header, another version, or the first section,
/// numbered from 0 to 5, that passes the end of the file.
#[derive(Clone, Copy)]
pub enum OpenFault {
    Short,
    Version,
    Section(u8),
}

/// A struct: its type, its DataOrDataOffset and its FieldCount.
#[derive(Clone, Copy)]
pub struct StructRow {
    pub kind: u32,
    pub word: u32,
    pub count: u32,
}

/// A field: its type, the number of its label and its DataOrDataOffset.
#[derive(Clone, Copy)]
pub struct FieldRow {
    pub kind: u32,
    pub label: u32,
    pub word: u32,
}
