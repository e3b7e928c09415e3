ghost use Rattle.std.specs.Prelude.{◌≡◌, slice_get};
ghost use Rattle.gff_read.specs.Rows.{kinds};

/// The types of a field, in the order of their numbers.
#[derive(Clone, Copy)]
pub enum FieldKind {
    Byte,
    Char,
    Word,
    Short,
    Dword,
    Int,
    Dword64,
    Int64,
    Float,
    Double,
    Str,
    Res,
    Loc,
    Void,
    Struct,
    List,
}

const KINDS: [FieldKind; 16] = [
    FieldKind::Byte,
    FieldKind::Char,
    FieldKind::Word,
    FieldKind::Short,
    FieldKind::Dword,
    FieldKind::Int,
    FieldKind::Dword64,
    FieldKind::Int64,
    FieldKind::Float,
    FieldKind::Double,
    FieldKind::Str,
    FieldKind::Res,
    FieldKind::Loc,
    FieldKind::Void,
    FieldKind::Struct,
    FieldKind::List,
];

impl FieldKind {
    /// The type of that number.
    pub fn of(n: u32) -> Option<FieldKind>
        ensures kind { result ≡ slice_get kinds n }
    {
        KINDS.get(n as usize).copied()
    }
}
