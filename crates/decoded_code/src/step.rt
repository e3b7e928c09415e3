ghost use Rattle.std.specs.Prelude.{◌≡◌, ◌≤◌, ◌<◌, ◌+◌, ◌^◌, IfOk, IfSome};
ghost use Rattle.nwq_value.specs.Limits.{file_limit};
ghost use Rattle.ncs_code.specs.Plain.{Const, plain, plain_lit, Text as TextLit};
ghost use Rattle.ncs_code.specs.Plain.{CpDownSp, CpTopSp, DecISp, IncISp, MovSp};
ghost use Rattle.ncs_code.specs.Spelling.{op_size};
ghost use Rattle.stack_shape.specs.Laws.{offset_to};
ghost use Rattle.decoded_code.specs.Steps.{kept, op_of, whole};

use ncs_code::{Lit, Op};
use nwq_value::{NoMemory, Text};
use stack_shape::{range_at, ranges_of_cells};
use std::alloc::Global;

/// How many bytes a text has at most.
const TEXT_BYTES: u32 = 8192;

/// A decoded instruction. One variant stands for each name, with its arguments as they are spelled;
/// further ones, which are asked for first, for those that name one cell, or cells that are
/// dropped, by numbers of cells. What CONST pushes is decoded too.
///
/// The variants that do more than change the cells stand last, so that one comparison tells them.
#[derive(Drop)]
pub enum Step {
    /// CPDOWNSP of one cell, over which so many others lie.
    DownCell { above: u32 },
    CpDownSp { offset: i32, size: u16 },
    RsAdd { kind: u8 },
    /// CPTOPSP of one cell, over which so many others lie.
    TopCell { above: u32 },
    CpTopSp { offset: i32, size: u16 },
    ConstInt(i32),
    /// The four bytes of a float, as they are spelled.
    ConstFloat([u8; 4]),
    /// The text that is pushed, and how many bytes of the string it leaves out.
    ConstText { left_out: u32, text: Text },
    /// An object's number.
    ConstObject(u32),
    LogAnd,
    LogOr,
    IncOr,
    ExcOr,
    BoolAnd,
    Equal { kind: u8, size: u16 },
    Nequal { kind: u8, size: u16 },
    Geq { kind: u8 },
    Gt { kind: u8 },
    Lt { kind: u8 },
    Leq { kind: u8 },
    ShLeft,
    ShRight,
    UshRight,
    Add { kind: u8 },
    Sub { kind: u8 },
    Mul { kind: u8 },
    Neg { kind: u8 },
    Comp,
    /// MOVSP of so many cells, at least one.
    DropCells { count: u32 },
    MovSp { offset: i32 },
    Jmp { offset: i32 },
    Jz { offset: i32 },
    Destruct { total: u16, offset: u16, size: u16 },
    Not,
    /// DECISP of the cell over which so many others lie.
    DecCell { above: u32 },
    DecISp { offset: i32 },
    /// INCISP of the cell over which so many others lie.
    IncCell { above: u32 },
    IncISp { offset: i32 },
    Jnz { offset: i32 },
    CpDownBp { offset: i32, size: u16 },
    CpTopBp { offset: i32, size: u16 },
    DecIBp { offset: i32 },
    IncIBp { offset: i32 },
    Nop,
    Div { kind: u8 },
    Mod,
    Action { routine: u16, count: u8 },
    Jsr { offset: i32 },
    Retn,
    SaveBp,
    RestoreBp,
    StoreState { globals: u32, locals: u32 },
}

/// How many cells lie over the one that begins at an offset from the top, where one does.
#[tactic(auto, using(crate::proofs::Offsets::offset_lemmas))]
fn cells_above(offset: i32) -> Option<u32>
    ensures offset { IfSome result (λ above. offset ≡ offset_to (above + 1)) }
    ensures bound { IfSome result (λ above. above + 1 < 2 ^ 32) }
{
    ranges_of_cells();
    match range_at(offset, 4) {
        None => None,
        Some(range) => Some(range.above as u32),
    }
}

/// CPDOWNSP.
fn down_step(offset: i32, size: u16) -> Step
    ensures step { op_of result ≡ CpDownSp offset size }
{
    if size != 4 {
        return Step::CpDownSp { offset, size };
    }
    match cells_above(offset) {
        None => Step::CpDownSp { offset, size },
        Some(above) => Step::DownCell { above },
    }
}

/// CPTOPSP.
fn top_step(offset: i32, size: u16) -> Step
    ensures step { op_of result ≡ CpTopSp offset size }
{
    if size != 4 {
        return Step::CpTopSp { offset, size };
    }
    match cells_above(offset) {
        None => Step::CpTopSp { offset, size },
        Some(above) => Step::TopCell { above },
    }
}

/// MOVSP.
fn drop_step(offset: i32) -> Step
    ensures step { op_of result ≡ MovSp offset }
{
    match cells_above(offset) {
        None => Step::MovSp { offset },
        Some(above) => Step::DropCells { count: above + 1 },
    }
}

/// DECISP.
fn less_step(offset: i32) -> Step
    ensures step { op_of result ≡ DecISp offset }
{
    match cells_above(offset) {
        None => Step::DecISp { offset },
        Some(above) => Step::DecCell { above },
    }
}

/// INCISP.
fn more_step(offset: i32) -> Step
    ensures step { op_of result ≡ IncISp offset }
{
    match cells_above(offset) {
        None => Step::IncISp { offset },
        Some(above) => Step::IncCell { above },
    }
}

/// CONST, of this size.
#[tactic(auto, using(crate::proofs::Texts::text_lemmas))]
fn const_step(alloc: Global, lit: &Lit<'_>, size: u32) -> Result<Step, NoMemory>
    requires size { size ≡ op_size (Const (plain_lit lit.now)) }
    ensures same { IfOk result (λ step. op_of step ≡ kept (Const (plain_lit lit.now))) }
{
    match lit {
        Lit::Int(n) => Ok(Step::ConstInt(*n)),
        Lit::Float(bytes) => Ok(Step::ConstFloat(*bytes)),
        Lit::Text(bytes) => Ok(Step::ConstText {
            left_out: (size - 4).saturating_sub(TEXT_BYTES),
            text: Text::of(alloc, bytes)?,
        }),
        Lit::Object(n) => Ok(Step::ConstObject(*n)),
    }
}

/// An instruction of this size, decoded.
pub(crate) fn step_of(alloc: Global, op: &Op<'_>, size: u32) -> Result<Step, NoMemory>
    requires size { size ≡ op_size (plain op.now) }
    ensures same { IfOk result (λ step. op_of step ≡ kept (plain op.now)) }
{
    match op {
        Op::CpDownSp { offset, size } => Ok(down_step(*offset, *size)),
        Op::RsAdd { kind } => Ok(Step::RsAdd { kind: *kind }),
        Op::CpTopSp { offset, size } => Ok(top_step(*offset, *size)),
        Op::Const(lit) => const_step(alloc, lit, size),
        Op::Action { routine, count } => Ok(Step::Action {
            routine: *routine,
            count: *count,
        }),
        Op::LogAnd => Ok(Step::LogAnd),
        Op::LogOr => Ok(Step::LogOr),
        Op::IncOr => Ok(Step::IncOr),
        Op::ExcOr => Ok(Step::ExcOr),
        Op::BoolAnd => Ok(Step::BoolAnd),
        Op::Equal { kind, size } => Ok(Step::Equal {
            kind: *kind,
            size: *size,
        }),
        Op::Nequal { kind, size } => Ok(Step::Nequal {
            kind: *kind,
            size: *size,
        }),
        Op::Geq { kind } => Ok(Step::Geq { kind: *kind }),
        Op::Gt { kind } => Ok(Step::Gt { kind: *kind }),
        Op::Lt { kind } => Ok(Step::Lt { kind: *kind }),
        Op::Leq { kind } => Ok(Step::Leq { kind: *kind }),
        Op::ShLeft => Ok(Step::ShLeft),
        Op::ShRight => Ok(Step::ShRight),
        Op::UshRight => Ok(Step::UshRight),
        Op::Add { kind } => Ok(Step::Add { kind: *kind }),
        Op::Sub { kind } => Ok(Step::Sub { kind: *kind }),
        Op::Mul { kind } => Ok(Step::Mul { kind: *kind }),
        Op::Div { kind } => Ok(Step::Div { kind: *kind }),
        Op::Mod => Ok(Step::Mod),
        Op::Neg { kind } => Ok(Step::Neg { kind: *kind }),
        Op::Comp => Ok(Step::Comp),
        Op::MovSp { offset } => Ok(drop_step(*offset)),
        Op::Jmp { offset } => Ok(Step::Jmp { offset: *offset }),
        Op::Jsr { offset } => Ok(Step::Jsr { offset: *offset }),
        Op::Jz { offset } => Ok(Step::Jz { offset: *offset }),
        Op::Retn => Ok(Step::Retn),
        Op::Destruct {
            total,
            offset,
            size,
        } => Ok(Step::Destruct {
            total: *total,
            offset: *offset,
            size: *size,
        }),
        Op::Not => Ok(Step::Not),
        Op::DecISp { offset } => Ok(less_step(*offset)),
        Op::IncISp { offset } => Ok(more_step(*offset)),
        Op::Jnz { offset } => Ok(Step::Jnz { offset: *offset }),
        Op::CpDownBp { offset, size } => Ok(Step::CpDownBp {
            offset: *offset,
            size: *size,
        }),
        Op::CpTopBp { offset, size } => Ok(Step::CpTopBp {
            offset: *offset,
            size: *size,
        }),
        Op::DecIBp { offset } => Ok(Step::DecIBp { offset: *offset }),
        Op::IncIBp { offset } => Ok(Step::IncIBp { offset: *offset }),
        Op::SaveBp => Ok(Step::SaveBp),
        Op::RestoreBp => Ok(Step::RestoreBp),
        Op::StoreState { globals, locals } => Ok(Step::StoreState {
            globals: *globals,
            locals: *locals,
        }),
        Op::Nop => Ok(Step::Nop),
    }
}

/// How many bytes a constant string takes, of which so many are left out behind the text.
#[tactic(auto, using(crate::proofs::Texts::size_lemmas))]
fn text_size(left_out: u32, text: &Text) -> u32
    requires small { op_size (Const (TextLit (whole text.now left_out))) ≤ file_limit }
    ensures size { result ≡ op_size (Const (TextLit (whole text.now left_out))) }
{
    let count = text.bytes().len();
    if count < TEXT_BYTES as usize {
        4 + count as u32
    } else {
        4 + count as u32 + left_out
    }
}

impl Step {
    /// How many bytes the instruction takes in its file.
    #[inline(always)]
    pub fn size(&self) -> u32
        requires small { op_size (op_of self.now) ≤ file_limit }
        ensures size { result ≡ op_size (op_of self.now) }
    {
        match self {
            Step::DownCell { .. } => 8,
            Step::CpDownSp { .. } => 8,
            Step::TopCell { .. } => 8,
            Step::CpTopSp { .. } => 8,
            Step::CpDownBp { .. } => 8,
            Step::CpTopBp { .. } => 8,
            Step::Destruct { .. } => 8,
            Step::ConstInt(_) => 6,
            Step::ConstFloat(bytes) => 2 + bytes.as_slice().len() as u32,
            Step::ConstText { left_out, text } => text_size(*left_out, text),
            Step::ConstObject(_) => 6,
            Step::Action { .. } => 5,
            Step::Equal { kind, .. } => if *kind == 0x24 { 4 } else { 2 },
            Step::Nequal { kind, .. } => if *kind == 0x24 { 4 } else { 2 },
            Step::DropCells { .. } => 6,
            Step::MovSp { .. } => 6,
            Step::Jmp { .. } => 6,
            Step::Jsr { .. } => 6,
            Step::Jz { .. } => 6,
            Step::Jnz { .. } => 6,
            Step::DecCell { .. } => 6,
            Step::DecISp { .. } => 6,
            Step::IncCell { .. } => 6,
            Step::IncISp { .. } => 6,
            Step::DecIBp { .. } => 6,
            Step::IncIBp { .. } => 6,
            Step::StoreState { .. } => 10,
            Step::RsAdd { .. } | Step::LogAnd | Step::LogOr | Step::IncOr | Step::ExcOr => 2,
            Step::BoolAnd | Step::Geq { .. } | Step::Gt { .. } | Step::Lt { .. } => 2,
            Step::Leq { .. } | Step::ShLeft | Step::ShRight | Step::UshRight => 2,
            Step::Add { .. } | Step::Sub { .. } | Step::Mul { .. } | Step::Div { .. } => 2,
            Step::Mod | Step::Neg { .. } | Step::Comp | Step::Not | Step::Retn => 2,
            Step::SaveBp | Step::RestoreBp | Step::Nop => 2,
        }
    }
}
