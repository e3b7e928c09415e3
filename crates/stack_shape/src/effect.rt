ghost use Rattle.std.specs.Prelude.{◌≡◌, ◌+◌, ◌<◌, ◌^◌, [], IfOk, IfSome};
ghost use Rattle.ncs_code.specs.Plain.{plain, plain_lit};
ghost use Rattle.stack_shape.specs.StackEffects.{added, compared, copied, range_int_changed};
ghost use Rattle.stack_shape.specs.StackEffects.{exchange, kept};
ghost use Rattle.stack_shape.specs.StackEffects.{kept_of, negated, no_effect, one_int, pushed};
ghost use Rattle.stack_shape.specs.StackEffects.{reckoned, removed, runs, stack_effect, two_alike};
ghost use Rattle.stack_shape.specs.StackEffects.{two_ints, type_of_both, type_of_lit, type_of_one};
ghost use Rattle.stack_shape.specs.StackEffects.{where_alike, written};

use crate::range::{CellRange, cell_count, depth_of, range_at};
use crate::top_first::{TopFirst, same_types, top_types};
use ncs_code::{Lit, Op};
use nwq_value::{NoMemory, Ty, Tys};
use std::alloc::Global;

/// What an instruction does to the top of the cells.
#[derive(Drop)]
pub struct StackEffect {
    /// How many slots it pops. All of them hold values.
    pub pops: usize,
    /// The types that it pushes then, so that the first is on top.
    pub pushes: Tys,
}

/// The effect, where both lists of types are there and are equal.
fn where_alike(a: Option<Tys>, b: Option<Tys>, effect: StackEffect) -> Option<StackEffect>
    ensures { result ≡ where_alike a b effect }
{
    match (a, b) {
        (Some(a), Some(b)) => {
            if same_types(a.as_slice(), b.as_slice()) {
                Some(effect)
            } else {
                None
            }
        }
        _ => None,
    }
}

/// Nothing is popped and nothing pushed.
fn no_effect(alloc: Global) -> StackEffect
    ensures { result ≡ no_effect }
{
    StackEffect {
        pops: 0,
        pushes: Tys::new(alloc),
    }
}

/// These types are popped, the first from the top, and those are pushed.
#[tactic(auto, unfolding(crate::specs::StackEffects::exchange))]
pub fn exchange<C: TopFirst>(
    alloc: Global,
    pops: &[Ty],
    pushes: &[Ty],
    cells: &C,
) -> Result<Option<StackEffect>, NoMemory>
    ensures { IfOk result (λ effect. effect ≡ exchange pops.now pushes.now (C.slots cells.now)) }
{
    let types = top_types(alloc, cells, pops.len())?;
    let effect = StackEffect {
        pops: pops.len(),
        pushes: Tys::of_slice(alloc, pushes)?,
    };
    Ok(where_alike(types, Some(Tys::of_slice(alloc, pops)?), effect))
}

/// A value of this type is pushed.
fn pushed(alloc: Global, ty: Option<Ty>) -> Result<Option<StackEffect>, NoMemory>
    ensures { IfOk result (λ effect. effect ≡ pushed ty) }
{
    match ty {
        None => Ok(None),
        Some(ty) => Ok(Some(StackEffect {
            pops: 0,
            pushes: Tys::of_slice(alloc, &[ty])?,
        })),
    }
}

/// The slots of a range are pushed.
fn copied<L: TopFirst>(
    alloc: Global,
    range: Option<CellRange>,
    slots: &L,
) -> Result<Option<StackEffect>, NoMemory>
    ensures { IfOk result (λ effect. effect ≡ copied range (L.slots slots.now)) }
{
    match range {
        None => Ok(None),
        Some(range) => match slots.types_at(alloc, range)? {
            None => Ok(None),
            Some(pushes) => Ok(Some(StackEffect { pops: 0, pushes })),
        },
    }
}

/// The top cells are written onto the slots of a range.
fn written<C: TopFirst, L: TopFirst>(
    alloc: Global,
    range: Option<CellRange>,
    cells: &C,
    slots: &L,
) -> Result<Option<StackEffect>, NoMemory>
    ensures { IfOk result (λ effect. effect
        ≡ written range (C.slots cells.now) (L.slots slots.now)) }
{
    match range {
        None => Ok(None),
        Some(range) => {
            let from = top_types(alloc, cells, range.count)?;
            let onto = slots.types_at(alloc, range)?;
            Ok(where_alike(from, onto, no_effect(alloc)))
        }
    }
}

/// The int at a range of one slot changes.
fn counted<L: TopFirst>(
    alloc: Global,
    range: Option<CellRange>,
    slots: &L,
) -> Result<Option<StackEffect>, NoMemory>
    ensures { IfOk result (λ effect. effect ≡ range_int_changed range (L.slots slots.now)) }
{
    match range {
        None => Ok(None),
        Some(range) => {
            let types = slots.types_at(alloc, range)?;
            let int = Tys::of_slice(alloc, &[Ty::Int])?;
            Ok(where_alike(types, Some(int), no_effect(alloc)))
        }
    }
}

/// So many cells are popped.
fn removed<C: TopFirst>(
    alloc: Global,
    count: Option<usize>,
    cells: &C,
) -> Result<Option<StackEffect>, NoMemory>
    ensures { IfOk result (λ effect. effect ≡ removed count (C.slots cells.now)) }
{
    match count {
        None => Ok(None),
        Some(pops) => match top_types(alloc, cells, pops)? {
            None => Ok(None),
            Some(_) => Ok(Some(StackEffect {
                pops,
                pushes: Tys::new(alloc),
            })),
        },
    }
}

/// Of the top cells those are kept that begin `offset` cells above the lowest of them.
fn kept_of<C: TopFirst>(
    alloc: Global,
    total: usize,
    offset: usize,
    count: usize,
    cells: &C,
) -> Result<Option<StackEffect>, NoMemory>
    requires { offset + count < 2 ^ 32 }
    ensures { IfOk result (λ effect. effect ≡ kept_of total offset count (C.slots cells.now)) }
{
    if total < offset + count {
        return Ok(None);
    }
    match top_types(alloc, cells, total)? {
        None => Ok(None),
        Some(types) => {
            let first = total - (offset + count);
            let pushes = Tys::of_slice(alloc, &types.as_slice()[first..first + count])?;
            Ok(Some(StackEffect {
                pops: total,
                pushes,
            }))
        }
    }
}

/// DESTRUCT.
#[tactic(auto, unfolding(crate::specs::StackEffects::kept))]
fn kept<C: TopFirst>(
    alloc: Global,
    total: u16,
    offset: u16,
    size: u16,
    cells: &C,
) -> Result<Option<StackEffect>, NoMemory>
    ensures { IfOk result (λ effect. effect ≡ kept total offset size (C.slots cells.now)) }
{
    match (
        cell_count(total as u32),
        cell_count(offset as u32),
        cell_count(size as u32),
    ) {
        (Some(total), Some(offset), Some(count)) => kept_of(alloc, total, offset, count, cells),
        _ => Ok(None),
    }
}

/// Two runs of so many cells are compared.
fn runs<C: TopFirst>(
    alloc: Global,
    count: Option<usize>,
    cells: &C,
) -> Result<Option<StackEffect>, NoMemory>
    requires { IfSome count (λ n. n < 2 ^ 32) }
    ensures { IfOk result (λ effect. effect ≡ runs count (C.slots cells.now)) }
{
    match count {
        None => Ok(None),
        Some(count) => {
            let upper = top_types(alloc, cells, count)?;
            let lower = cells.types_at(
                alloc,
                CellRange {
                    above: count,
                    count,
                },
            )?;
            let effect = StackEffect {
                pops: count + count,
                pushes: Tys::of_slice(alloc, &[Ty::Int])?,
            };
            Ok(where_alike(upper, lower, effect))
        }
    }
}

fn one_int<C: TopFirst>(alloc: Global, cells: &C) -> Result<Option<StackEffect>, NoMemory>
    ensures { IfOk result (λ effect. effect ≡ one_int (C.slots cells.now)) }
{
    exchange(alloc, &[Ty::Int], &[Ty::Int], cells)
}

fn two_ints<C: TopFirst>(alloc: Global, cells: &C) -> Result<Option<StackEffect>, NoMemory>
    ensures { IfOk result (λ effect. effect ≡ two_ints (C.slots cells.now)) }
{
    exchange(alloc, &[Ty::Int, Ty::Int], &[Ty::Int], cells)
}

/// Two values of this type are compared.
fn two_alike<C: TopFirst>(
    alloc: Global,
    ty: Option<Ty>,
    cells: &C,
) -> Result<Option<StackEffect>, NoMemory>
    ensures { IfOk result (λ effect. effect ≡ two_alike ty (C.slots cells.now)) }
{
    match ty {
        None => Ok(None),
        Some(ty) => exchange(alloc, &[ty, ty], &[Ty::Int], cells),
    }
}

/// The type of one value, by its type byte.
#[tactic(auto, unfolding(crate::specs::StackEffects::type_of_one))]
pub fn type_of_one(kind: u8) -> Option<Ty>
    ensures ty { result ≡ type_of_one kind }
{
    match kind {
        0x03 => Some(Ty::Int),
        0x05 => Some(Ty::Text),
        0x06 => Some(Ty::Object),
        0x10 => Some(Ty::Effect),
        0x11 => Some(Ty::Event),
        _ => None,
    }
}

/// The type of two values that are compared, by their type byte.
#[tactic(auto, unfolding(crate::specs::StackEffects::type_of_both))]
pub fn type_of_both(kind: u8) -> Option<Ty>
    ensures ty { result ≡ type_of_both kind }
{
    match kind {
        0x20 => Some(Ty::Int),
        0x22 => Some(Ty::Object),
        0x23 => Some(Ty::Text),
        0x30 => Some(Ty::Effect),
        0x31 => Some(Ty::Event),
        _ => None,
    }
}

fn type_of_lit(lit: &Lit<'_>) -> Option<Ty>
    ensures { result ≡ type_of_lit (plain_lit lit.now) }
{
    match lit {
        Lit::Int(_) => Some(Ty::Int),
        Lit::Float(_) => None,
        Lit::Text(_) => Some(Ty::Text),
        Lit::Object(_) => Some(Ty::Object),
    }
}

/// EQUAL and NEQUAL.
#[tactic(auto, unfolding(crate::specs::StackEffects::compared))]
fn compared<C: TopFirst>(
    alloc: Global,
    kind: u8,
    size: u16,
    cells: &C,
) -> Result<Option<StackEffect>, NoMemory>
    ensures { IfOk result (λ effect. effect ≡ compared kind size (C.slots cells.now)) }
{
    if kind == 0x24 {
        runs(alloc, cell_count(size as u32), cells)
    } else {
        two_alike(alloc, type_of_both(kind), cells)
    }
}

/// ADD.
#[tactic(auto, unfolding(crate::specs::StackEffects::added))]
fn added<C: TopFirst>(alloc: Global, kind: u8, cells: &C) -> Result<Option<StackEffect>, NoMemory>
    ensures { IfOk result (λ effect. effect ≡ added kind (C.slots cells.now)) }
{
    if kind == 0x20 {
        two_ints(alloc, cells)
    } else if kind == 0x23 {
        exchange(alloc, &[Ty::Text, Ty::Text], &[Ty::Text], cells)
    } else {
        Ok(None)
    }
}

/// Arithmetic and order of ints.
#[tactic(auto, unfolding(crate::specs::StackEffects::reckoned))]
fn reckoned<C: TopFirst>(
    alloc: Global,
    kind: u8,
    cells: &C,
) -> Result<Option<StackEffect>, NoMemory>
    ensures { IfOk result (λ effect. effect ≡ reckoned kind (C.slots cells.now)) }
{
    if kind == 0x20 {
        two_ints(alloc, cells)
    } else {
        Ok(None)
    }
}

/// NEG.
#[tactic(auto, unfolding(crate::specs::StackEffects::negated))]
fn negated<C: TopFirst>(alloc: Global, kind: u8, cells: &C) -> Result<Option<StackEffect>, NoMemory>
    ensures { IfOk result (λ effect. effect ≡ negated kind (C.slots cells.now)) }
{
    if kind == 0x03 {
        one_int(alloc, cells)
    } else {
        Ok(None)
    }
}

/// The effect of an instruction that changes nothing but the cells, or `None` where it has no rule
/// on them.
#[tactic(auto, unfolding(crate::specs::StackEffects::stack_effect))]
pub fn stack_effect<U: TopFirst, C: TopFirst>(
    alloc: Global,
    op: &Op<'_>,
    under: &U,
    cells: &C,
) -> Result<Option<StackEffect>, NoMemory>
    ensures effect { IfOk result (λ effect. effect
        ≡ stack_effect (plain op.now) (U.slots under.now) (C.slots cells.now)) }
{
    match op {
        Op::CpDownSp { offset, size } => written(alloc, range_at(*offset, *size), cells, cells),
        Op::CpTopSp { offset, size } => copied(alloc, range_at(*offset, *size), cells),
        Op::CpDownBp { offset, size } => written(alloc, range_at(*offset, *size), cells, under),
        Op::CpTopBp { offset, size } => copied(alloc, range_at(*offset, *size), under),
        Op::DecISp { offset } | Op::IncISp { offset } => counted(
            alloc,
            range_at(*offset, 4),
            cells,
        ),
        Op::DecIBp { offset } | Op::IncIBp { offset } => counted(
            alloc,
            range_at(*offset, 4),
            under,
        ),
        Op::RsAdd { kind } => pushed(alloc, type_of_one(*kind)),
        Op::Const(lit) => pushed(alloc, type_of_lit(lit)),
        Op::LogAnd | Op::LogOr | Op::IncOr | Op::ExcOr | Op::BoolAnd => two_ints(alloc, cells),
        Op::ShLeft | Op::ShRight | Op::UshRight | Op::Mod => two_ints(alloc, cells),
        Op::Equal { kind, size } | Op::Nequal { kind, size } => compared(
            alloc, *kind, *size, cells,
        ),
        Op::Geq { kind } | Op::Gt { kind } | Op::Lt { kind } | Op::Leq { kind } => reckoned(
            alloc, *kind, cells,
        ),
        Op::Sub { kind } | Op::Mul { kind } | Op::Div { kind } => reckoned(alloc, *kind, cells),
        Op::Add { kind } => added(alloc, *kind, cells),
        Op::Neg { kind } => negated(alloc, *kind, cells),
        Op::Comp | Op::Not => one_int(alloc, cells),
        Op::MovSp { offset } => removed(alloc, depth_of(*offset), cells),
        Op::Destruct {
            total,
            offset,
            size,
        } => kept(alloc, *total, *offset, *size, cells),
        Op::Jz { .. } | Op::Jnz { .. } => exchange(alloc, &[Ty::Int], &[], cells),
        Op::Jmp { .. } | Op::Nop => Ok(Some(no_effect(alloc))),
        Op::Action { .. }
        | Op::SaveBp
        | Op::RestoreBp
        | Op::StoreState { .. }
        | Op::Jsr { .. }
        | Op::Retn => Ok(None),
    }
}
