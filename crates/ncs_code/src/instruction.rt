/// What CONST pushes.
#[derive(Clone, Copy)]
pub enum Lit<'a> {
    Int(i32),
    /// The four bytes of a float, as they are spelled.
    Float([u8; 4]),
    Text(&'a [u8]),
    /// An object's number.
    Object(u32),
}

/// An instruction: one variant for each name, with its arguments in the order of their spelling.
/// `kind` is the type byte, where the instruction has several.
#[derive(Clone, Copy)]
pub enum Op<'a> {
    CpDownSp { offset: i32, size: u16 },
    RsAdd { kind: u8 },
    CpTopSp { offset: i32, size: u16 },
    Const(Lit<'a>),
    Action { routine: u16, count: u8 },
    LogAnd,
    LogOr,
    IncOr,
    ExcOr,
    BoolAnd,
    /// The size is spelled at the type 0x24 alone, and is 0 at every other.
    Equal { kind: u8, size: u16 },
    /// The size is spelled at the type 0x24 alone, and is 0 at every other.
    Nequal { kind: u8, size: u16 },
    Geq { kind: u8 },
    Gt { kind: u8 },
    Lt { kind: u8 },
    Leq { kind: u8 },
    ShLeft,
    ShRight,
    UshRight,
    Add { kind: u8 },
    Sub { kind: u8 },
    Mul { kind: u8 },
    Div { kind: u8 },
    Mod,
    Neg { kind: u8 },
    Comp,
    MovSp { offset: i32 },
    Jmp { offset: i32 },
    Jsr { offset: i32 },
    Jz { offset: i32 },
    Retn,
    Destruct { total: u16, offset: u16, size: u16 },
    Not,
    DecISp { offset: i32 },
    IncISp { offset: i32 },
    Jnz { offset: i32 },
    CpDownBp { offset: i32, size: u16 },
    CpTopBp { offset: i32, size: u16 },
    DecIBp { offset: i32 },
    IncIBp { offset: i32 },
    SaveBp,
    RestoreBp,
    StoreState { globals: u32, locals: u32 },
    Nop,
}
