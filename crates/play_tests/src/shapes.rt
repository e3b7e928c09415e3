//! The rule of one instruction, row by row. Shapes are written as letters, the lowest cell first:
//! i, t, o, e and v for an int, a text, an object, an effect and an event, and B for a base.
ghost use Rattle.std.specs.Prelude.{◌≡◌, ◌<◌, ◌^◌, IfOk, IsTrue};
ghost use Rattle.ncs_code.specs.Plain.{plain};
ghost use Rattle.stack_shape.specs.Rule.{IsOneStep};

use ncs_code::{Lit, Op};
use nwq_value::{NoMemory, Param, Params, Routine, Table, Text, Ty, role_of};
use stack_shape::{Shape, Slot, Slots, Unders, step, suffix};
use std::alloc::Global;
use std::test::*;

/// A shape as it is written: the cells beneath BP, those of its own, what is saved, and how many
/// states are pending.
#[derive(Clone, Copy)]
struct Written<'a>(&'a [u8], &'a [u8], &'a [&'a [u8]], u32);

fn slot_of(letter: u8) -> Slot {
    match letter {
        b'i' => Slot::Of(Ty::Int),
        b't' => Slot::Of(Ty::Text),
        b'o' => Slot::Of(Ty::Object),
        b'e' => Slot::Of(Ty::Effect),
        b'v' => Slot::Of(Ty::Event),
        _ => Slot::Base,
    }
}

fn slots_of(alloc: Global, letters: &[u8]) -> Result<Slots, NoMemory> {
    let mut slots = Slots::new(alloc);
    for letter in letters {
        slots.push(slot_of(*letter))?;
    }
    Ok(slots)
}

fn are_slots(slots: &[Slot], letters: &[u8]) -> bool {
    slots.len() == letters.len()
        && slots
            .iter()
            .zip(letters)
            .all(|(slot, letter)| *slot == slot_of(*letter))
}

fn unders_of(alloc: Global, saved: &[&[u8]]) -> Result<Unders, NoMemory> {
    let mut unders = Unders::new(alloc);
    for under in saved {
        unders.push(slots_of(alloc, under)?)?;
    }
    Ok(unders)
}

fn shape_of(alloc: Global, written: &Written<'_>) -> Result<Shape, NoMemory>
    ensures { IfOk result (λ shape. shape.pending ≡ written.now.3) }
{
    let saved = unders_of(alloc, written.2)?;
    let under = slots_of(alloc, written.0)?;
    Ok(Shape {
        cells: slots_of(alloc, written.1)?,
        under,
        saved,
        pending: written.3,
    })
}

fn are_saved(saved: &[Slots], written: &[&[u8]]) -> bool {
    saved.len() == written.len()
        && saved
            .iter()
            .zip(written)
            .all(|(slots, letters)| are_slots(slots.as_slice(), letters))
}

fn is_shape(shape: &Shape, written: &Written<'_>) -> bool {
    are_slots(shape.cells.as_slice(), written.1)
        && are_slots(shape.under.as_slice(), written.0)
        && are_saved(shape.saved.as_slice(), written.2)
        && shape.pending == written.3
}

fn is_after(after: &Option<Shape>, wanted: &Option<Written<'_>>) -> bool {
    match (after, wanted) {
        (None, None) => true,
        (Some(shape), Some(written)) => is_shape(shape, written),
        (None, Some(_)) | (Some(_), None) => false,
    }
}

/// Whether the instruction is neither JSR nor RETN.
fn is_one_step(op: &Op<'_>) -> bool
    ensures one { IsTrue result → IsOneStep (plain op.now) }
{
    match op {
        Op::Jsr { .. } | Op::Retn => false,
        _ => true,
    }
}

/// Whether the instruction leads from this shape to that one, or has no rule on it, under a header.
fn is_led(
    alloc: Global,
    table: &Table,
    op: &Op<'_>,
    shape: &Shape,
    wanted: &Option<Written<'_>>,
) -> bool
    requires one { IsOneStep (plain op.now) }
    requires pending { shape.now.pending < 2 ^ 31 }
{
    match step(alloc, op, shape, table) {
        Err(NoMemory) => false,
        Ok(after) => {
            let is = is_after(&after, wanted);
            drop(after);
            is
        }
    }
}

/// Whether the instruction leads from what is written to what is wanted, or has no rule on it,
/// under a header.
fn leads(
    alloc: Global,
    table: &Table,
    op: &Op<'_>,
    before: &Written<'_>,
    wanted: &Option<Written<'_>>,
) -> bool {
    if !is_one_step(op) || before.3 >= 2_147_483_648 {
        return false;
    }
    match shape_of(alloc, before) {
        Err(NoMemory) => false,
        Ok(shape) => {
            let is = is_led(alloc, table, op, &shape, wanted);
            drop(shape);
            is
        }
    }
}

/// An instruction, the shape before it, and the one after it where it has a rule.
type Row = (Op<'static>, Written<'static>, Option<Written<'static>>);

/// The place of the first row of which something else comes, if there is one.
fn first_other(alloc: Global, table: &Table, rows: &[Row]) -> Option<usize> {
    for (place, (op, before, wanted)) in rows.iter().enumerate() {
        if !leads(alloc, table, op, before, wanted) {
            return Some(place);
        }
    }
    None
}

/// An instruction, the cells before it, and those after it where it has a rule on them. Nothing is
/// beneath BP, saved or pending.
type CellsRow = (Op<'static>, &'static [u8], Option<&'static [u8]>);

fn of_cells(cells: &[u8]) -> Written<'_> {
    Written(b"", cells, &[], 0)
}

/// The place of the first row after which other cells stand, if there is one.
fn first_other_cells(alloc: Global, table: &Table, rows: &[CellsRow]) -> Option<usize> {
    for (place, (op, before, wanted)) in rows.iter().enumerate() {
        let wanted = match wanted {
            None => None,
            Some(cells) => Some(of_cells(cells)),
        };
        if !leads(alloc, table, op, &of_cells(before), &wanted) {
            return Some(place);
        }
    }
    None
}

const CELLS: &[CellsRow] = &[
    // Values are pushed.
    (Op::RsAdd { kind: 0x03 }, b"t", Some(b"ti")),
    (Op::RsAdd { kind: 0x05 }, b"", Some(b"t")),
    (Op::RsAdd { kind: 0x06 }, b"", Some(b"o")),
    (Op::RsAdd { kind: 0x10 }, b"", Some(b"e")),
    (Op::RsAdd { kind: 0x11 }, b"B", Some(b"Bv")),
    (Op::RsAdd { kind: 0x04 }, b"", None),
    (Op::Const(Lit::Int(1)), b"t", Some(b"ti")),
    (Op::Const(Lit::Text(b"a")), b"", Some(b"t")),
    (Op::Const(Lit::Object(0)), b"", Some(b"o")),
    (Op::Const(Lit::Float([0; 4])), b"", None),
    // Cells are copied.
    (
        Op::CpTopSp {
            offset: -8,
            size: 4,
        },
        b"oti",
        Some(b"otit"),
    ),
    (
        Op::CpTopSp {
            offset: -12,
            size: 8,
        },
        b"oti",
        Some(b"otiot"),
    ),
    (
        Op::CpTopSp {
            offset: -12,
            size: 4,
        },
        b"ti",
        None,
    ),
    (
        Op::CpTopSp {
            offset: -8,
            size: 4,
        },
        b"Bi",
        None,
    ),
    (
        Op::CpTopSp {
            offset: -8,
            size: 0,
        },
        b"ti",
        None,
    ),
    (
        Op::CpTopSp {
            offset: -4,
            size: 8,
        },
        b"ti",
        None,
    ),
    (
        Op::CpTopSp {
            offset: -6,
            size: 4,
        },
        b"ti",
        None,
    ),
    (
        Op::CpDownSp {
            offset: -8,
            size: 4,
        },
        b"ii",
        Some(b"ii"),
    ),
    (
        Op::CpDownSp {
            offset: -8,
            size: 4,
        },
        b"ti",
        None,
    ),
    (
        Op::CpDownSp {
            offset: -8,
            size: 4,
        },
        b"Bi",
        None,
    ),
    // Ints are reckoned.
    (Op::LogAnd, b"tii", Some(b"ti")),
    (Op::UshRight, b"ii", Some(b"i")),
    (Op::Mod, b"it", None),
    (Op::ExcOr, b"i", None),
    (Op::Leq { kind: 0x20 }, b"ii", Some(b"i")),
    (Op::Div { kind: 0x20 }, b"ii", Some(b"i")),
    (Op::Sub { kind: 0x21 }, b"ii", None),
    (Op::Add { kind: 0x20 }, b"ii", Some(b"i")),
    (Op::Add { kind: 0x23 }, b"tt", Some(b"t")),
    (Op::Add { kind: 0x23 }, b"ii", None),
    (Op::Neg { kind: 0x03 }, b"i", Some(b"i")),
    (Op::Neg { kind: 0x04 }, b"i", None),
    (Op::Comp, b"i", Some(b"i")),
    (Op::Not, b"o", None),
    (Op::IncISp { offset: -8 }, b"it", Some(b"it")),
    (Op::DecISp { offset: -4 }, b"it", None),
    // Values are compared.
    (
        Op::Equal {
            kind: 0x20,
            size: 0,
        },
        b"tii",
        Some(b"ti"),
    ),
    (
        Op::Equal {
            kind: 0x23,
            size: 0,
        },
        b"tt",
        Some(b"i"),
    ),
    (
        Op::Equal {
            kind: 0x31,
            size: 0,
        },
        b"vv",
        Some(b"i"),
    ),
    (
        Op::Equal {
            kind: 0x31,
            size: 0,
        },
        b"ee",
        None,
    ),
    (
        Op::Equal {
            kind: 0x21,
            size: 0,
        },
        b"ii",
        None,
    ),
    (
        Op::Equal {
            kind: 0x24,
            size: 8,
        },
        b"otiti",
        Some(b"oi"),
    ),
    (
        Op::Equal {
            kind: 0x24,
            size: 8,
        },
        b"otiit",
        None,
    ),
    (
        Op::Nequal {
            kind: 0x22,
            size: 0,
        },
        b"oo",
        Some(b"i"),
    ),
    (
        Op::Nequal {
            kind: 0x30,
            size: 0,
        },
        b"ee",
        Some(b"i"),
    ),
    (
        Op::Nequal {
            kind: 0x24,
            size: 0,
        },
        b"o",
        Some(b"oi"),
    ),
    // Cells are removed.
    (Op::MovSp { offset: -8 }, b"oti", Some(b"o")),
    (Op::MovSp { offset: 0 }, b"o", Some(b"o")),
    (Op::MovSp { offset: 4 }, b"o", None),
    (Op::MovSp { offset: -8 }, b"Bi", None),
    (Op::Jz { offset: 6 }, b"ti", Some(b"t")),
    (Op::Jnz { offset: 6 }, b"it", None),
    (Op::Jmp { offset: 6 }, b"ti", Some(b"ti")),
    (Op::Nop, b"B", Some(b"B")),
    (
        Op::Destruct {
            total: 12,
            offset: 0,
            size: 4,
        },
        b"ioti",
        Some(b"io"),
    ),
    (
        Op::Destruct {
            total: 12,
            offset: 4,
            size: 8,
        },
        b"ioti",
        Some(b"iti"),
    ),
    (
        Op::Destruct {
            total: 4,
            offset: 0,
            size: 0,
        },
        b"ot",
        Some(b"o"),
    ),
    (
        Op::Destruct {
            total: 4,
            offset: 4,
            size: 4,
        },
        b"oti",
        None,
    ),
    (
        Op::Destruct {
            total: 8,
            offset: 4,
            size: 4,
        },
        b"Bi",
        None,
    ),
    // No base is saved.
    (Op::RestoreBp, b"tB", None),
];

const SHAPES: &[Row] = &[
    // Cells beneath BP are reached.
    (
        Op::CpTopBp {
            offset: -8,
            size: 4,
        },
        Written(b"eti", b"o", &[], 0),
        Some(Written(b"eti", b"ot", &[], 0)),
    ),
    (
        Op::CpTopBp {
            offset: -8,
            size: 4,
        },
        Written(b"i", b"to", &[], 0),
        None,
    ),
    (
        Op::CpDownBp {
            offset: -4,
            size: 4,
        },
        Written(b"to", b"o", &[], 0),
        Some(Written(b"to", b"o", &[], 0)),
    ),
    (
        Op::CpDownBp {
            offset: -4,
            size: 4,
        },
        Written(b"ot", b"o", &[], 0),
        None,
    ),
    (
        Op::IncIBp { offset: -4 },
        Written(b"i", b"", &[], 0),
        Some(Written(b"i", b"", &[], 0)),
    ),
    (Op::IncIBp { offset: -4 }, Written(b"t", b"i", &[], 0), None),
    // Bases are pushed and taken.
    (
        Op::SaveBp,
        Written(b"o", b"ti", &[], 0),
        Some(Written(b"ti", b"tiB", &[b"o"], 0)),
    ),
    (
        Op::RestoreBp,
        Written(b"t", b"tB", &[b"e", b"oo"], 3),
        Some(Written(b"oo", b"t", &[b"e"], 3)),
    ),
    // States are stored.
    (
        Op::StoreState {
            globals: 4,
            locals: 8,
        },
        Written(b"eo", b"Bti", &[], 1),
        Some(Written(b"eo", b"Bti", &[], 2)),
    ),
    (
        Op::StoreState {
            globals: 4,
            locals: 8,
        },
        Written(b"", b"ti", &[], 0),
        None,
    ),
    (
        Op::StoreState {
            globals: 4,
            locals: 8,
        },
        Written(b"o", b"Bi", &[], 0),
        None,
    ),
    (
        Op::StoreState {
            globals: 4,
            locals: 8,
        },
        Written(b"B", b"ti", &[], 0),
        None,
    ),
];

#[test]
fn shapes_follow_instructions(rt: HostRuntime) {
    let table = Table::new(rt.alloc());
    let cells = first_other_cells(rt.alloc(), &table, CELLS);
    let shapes = first_other(rt.alloc(), &table, SHAPES);
    drop(table);
    assert_eq!(rt; [cells, shapes], [None, None]);
}

/// Calls under the header of `DelayCommand` alone.
const CALLS: &[Row] = &[
    (
        Op::Action {
            routine: 0,
            count: 2,
        },
        Written(b"", b"ti", &[], 2),
        Some(Written(b"", b"t", &[], 1)),
    ),
    (
        Op::Action {
            routine: 0,
            count: 2,
        },
        Written(b"", b"ti", &[], 0),
        None,
    ),
    (
        Op::Action {
            routine: 0,
            count: 2,
        },
        Written(b"", b"it", &[], 1),
        None,
    ),
    (
        Op::Action {
            routine: 0,
            count: 1,
        },
        Written(b"", b"ti", &[], 1),
        None,
    ),
    (
        Op::Action {
            routine: 1,
            count: 2,
        },
        Written(b"", b"ti", &[], 1),
        None,
    ),
];

/// The table of `void DelayCommand(int nMilliseconds, action aActionToDelay)` alone.
#[tactic(auto, unfolding(nwq_value::specs::Engine::routine_named, nwq_value::specs::Engine::constant_named))]
fn delaying(alloc: Global) -> Result<Table, NoMemory> {
    let name = Text::of(alloc, b"DelayCommand")?;
    let mut params = Params::new(alloc);
    params.push(Param {
        ty: Ty::Int,
        default: None,
    })?;
    params.push(Param {
        ty: Ty::Action,
        default: None,
    })?;
    let role = role_of(name.bytes(), Ty::Void, params.as_slice());
    let routine = Routine {
        name,
        result: Ty::Void,
        params,
        role,
    };
    let mut table = Table::new(alloc);
    match table.push(routine) {
        Ok(()) => Ok(table),
        Err(NoMemory) => {
            drop(table);
            Err(NoMemory)
        }
    }
}

#[test]
fn calls_take_arguments_and_states(rt: HostRuntime) -> Result<(), Fail> {
    let table = delaying(rt.alloc())?;
    let other = first_other(rt.alloc(), &table, CALLS);
    drop(table);
    assert_eq!(rt; other, None);
    Ok(())
}

/// Whether two shapes have this in common from the top.
fn have_in_common(alloc: Global, a: &Shape, b: &Shape, wanted: &Written<'_>) -> bool {
    match suffix(alloc, a, b) {
        Err(NoMemory) => false,
        Ok(common) => {
            let is = is_shape(&common, wanted);
            drop(common);
            is
        }
    }
}

/// The same where the second shape is written.
fn has_in_common(alloc: Global, a: &Shape, b: &Written<'_>, wanted: &Written<'_>) -> bool {
    match shape_of(alloc, b) {
        Err(NoMemory) => false,
        Ok(b) => {
            let is = have_in_common(alloc, a, &b, wanted);
            drop(b);
            is
        }
    }
}

/// The same where both are.
fn are_in_common(alloc: Global, a: &Written<'_>, b: &Written<'_>, wanted: &Written<'_>) -> bool {
    match shape_of(alloc, a) {
        Err(NoMemory) => false,
        Ok(a) => {
            let is = has_in_common(alloc, &a, b, wanted);
            drop(a);
            is
        }
    }
}

/// Two shapes, and what they have in common.
const TOPS: [Written; 3] = [
    Written(b"oe", b"tii", &[], 2),
    Written(b"e", b"oti", &[], 1),
    Written(b"e", b"i", &[], 0),
];

#[test]
fn the_top_is_common(rt: HostRuntime) {
    let [a, b, common] = TOPS;
    assert!(rt; are_in_common(rt.alloc(), &a, &b, &common));
}
