//! Places: where the cells lie that are read and written.

ghost use Rattle.std.specs.Prelude.{◌≡◌, ◌++◌, ◌+◌, ◌-◌, ◌<◌, ◌≤◌, ◌^◌, ℕ, IfOk, OnOk};
ghost use Rattle.std.specs.Option.{option_map};
ghost use Rattle.nwq_value.specs.Limits.{struct_cell_limit};
ghost use Rattle.typing_rules.specs.Reading.{plain as plain_expr};
ghost use Rattle.emission_rules.specs.Bounds.{IsType, frame_limit};
ghost use Rattle.emission_rules.specs.Expressions as code;
ghost use Rattle.emission_rules.specs.Operations as operations;
ghost use Rattle.ncs_code.specs.Plain.{plain};
ghost use Rattle.ncs_code.specs.Spelling.{HasRow};
ghost use Rattle.codegen_expr.specs.Parts.{IsAbove, IsSomeAbove, offsets, plain_home};
ghost use Rattle.codegen_expr.specs.Parts.{prefix_before};

use crate::lines::{beneath, bytes_of, emit_constant};
use crate::operations::is_set;
use ncs_code::Op;
use ncs_emit::Emitter;
use nss_layout::Layout;
use nss_tree::{AssignOperator, PrefixOperator};
use nwq_value::{NoMemory, Ty};
use typing_rules::{Expression, Place};

/// Where the cells of a place begin: so many cells above the bottom of the frame, or of the
/// globals.
#[derive(Clone, Copy)]
pub enum Home {
    Frame(u64),
    Globals(u64),
}

/// So many cells above it.
fn moved(home: Home, offset: u32) -> Home
    requires near { IsAbove frame_limit home }
    ensures moved { plain_home result ≡ code.moved offset (plain_home home) }
    ensures above { (cells : ℕ) → IsAbove cells home → IsAbove (offset + cells) result }
{
    match home {
        Home::Frame(at) => Home::Frame(at + u64::from(offset)),
        Home::Globals(at) => Home::Globals(at + u64::from(offset)),
    }
}

fn name_home(layout: &Layout, place: &Place) -> Option<Home>
    ensures home { option_map plain_home result ≡ code.home_of_name layout.now place.now }
    ensures above { IsSomeAbove 0 result }
{
    match place {
        Place::Local(number) => Some(Home::Frame(u64::from(layout.position(*number)))),
        Place::Global(number) => Some(Home::Globals(u64::from(layout.position(*number)))),
        Place::Const(_) => None,
    }
}

/// Where an expression lies, if it is a place.
#[tactic(auto, using(typing_rules::specs::Readings::known, crate::proofs::Above::above_more))]
pub(crate) fn home_of(layout: &Layout, e: &Expression) -> Option<Home>
    requires near { offsets (plain_expr e.now) ≤ frame_limit }
    ensures home { option_map plain_home result ≡ code.home layout.now (plain_expr e.now) }
    ensures above { IsSomeAbove (offsets (plain_expr e.now)) result }
{
    match e {
        Expression::Name { place, .. } => name_home(layout, place),
        Expression::Member { of, before, .. } => match home_of(layout, of) {
            None => None,
            Some(home) => Some(moved(home, *before)),
        },
        Expression::Literal { .. } => None,
        Expression::Call { .. } => None,
        Expression::Prefix { .. } => None,
        Expression::Postfix { .. } => None,
        Expression::Binary { .. } => None,
        Expression::Assign { .. } => None,
    }
}

/// Where a member of an expression lies, if it is a place.
#[tactic(auto, using(crate::proofs::Above::above_more))]
pub(crate) fn member_home(layout: &Layout, of: &Expression, before: u32) -> Option<Home>
    requires near { offsets (plain_expr of.now) ≤ frame_limit }
    ensures home { option_map plain_home result
        ≡ option_map (code.moved before) (code.home layout.now (plain_expr of.now)) }
{
    match home_of(layout, of) {
        None => None,
        Some(home) => Some(moved(home, before)),
    }
}

/// How many cells beneath the top, or beneath the base, a place begins.
fn below(cells: u32, at: u64) -> i32
    requires small { cells < 2 ^ 29 }
    ensures { result ≡ operations.beneath (cells - at) }
{
    beneath(u64::from(cells).saturating_sub(at) as u32)
}

/// The copy of so many cells to the top.
#[tactic(auto, unfolding(ncs_code::specs::Spelling::has_type))]
pub(crate) fn read(layout: &Layout, depth: u32, count: u32, home: Home) -> Op<'static>
    requires deep { depth < 2 ^ 29 }
    requires globals { layout.now.globals ≤ frame_limit }
    requires few { count ≤ struct_cell_limit }
    ensures op { plain result ≡ code.read layout.now depth count (plain_home home) }
    ensures row { HasRow (plain result) }
{
    match home {
        Home::Frame(at) => Op::CpTopSp {
            offset: below(depth, at),
            size: bytes_of(count),
        },
        Home::Globals(at) => Op::CpTopBp {
            offset: below(layout.globals(), at),
            size: bytes_of(count),
        },
    }
}

/// The copy of so many cells from the top.
#[tactic(auto, unfolding(ncs_code::specs::Spelling::has_type))]
fn write(layout: &Layout, depth: u32, count: u32, home: Home) -> Op<'static>
    requires deep { depth < 2 ^ 29 }
    requires globals { layout.now.globals ≤ frame_limit }
    requires few { count ≤ struct_cell_limit }
    ensures op { plain result ≡ code.write layout.now depth count (plain_home home) }
    ensures row { HasRow (plain result) }
{
    match home {
        Home::Frame(at) => Op::CpDownSp {
            offset: below(depth, at),
            size: bytes_of(count),
        },
        Home::Globals(at) => Op::CpDownBp {
            offset: below(layout.globals(), at),
            size: bytes_of(count),
        },
    }
}

#[tactic(auto, unfolding(ncs_code::specs::Spelling::has_type))]
fn increment(layout: &Layout, depth: u32, home: Home) -> Op<'static>
    requires deep { depth < 2 ^ 29 }
    requires globals { layout.now.globals ≤ frame_limit }
    ensures op { plain result ≡ code.increment layout.now depth (plain_home home) }
    ensures row { HasRow (plain result) }
{
    match home {
        Home::Frame(at) => Op::IncISp {
            offset: below(depth, at),
        },
        Home::Globals(at) => Op::IncIBp {
            offset: below(layout.globals(), at),
        },
    }
}

#[tactic(auto, unfolding(ncs_code::specs::Spelling::has_type))]
fn decrement(layout: &Layout, depth: u32, home: Home) -> Op<'static>
    requires deep { depth < 2 ^ 29 }
    requires globals { layout.now.globals ≤ frame_limit }
    ensures op { plain result ≡ code.decrement layout.now depth (plain_home home) }
    ensures row { HasRow (plain result) }
{
    match home {
        Home::Frame(at) => Op::DecISp {
            offset: below(depth, at),
        },
        Home::Globals(at) => Op::DecIBp {
            offset: below(layout.globals(), at),
        },
    }
}

/// Puts the read of so many cells of a place, if there is one.
pub(crate) fn emit_read(
    out: &mut Emitter,
    layout: &Layout,
    depth: u32,
    count: u32,
    home: Option<Home>,
) -> Result<(), NoMemory>
    requires deep { depth < 2 ^ 29 }
    requires globals { layout.now.globals ≤ frame_limit }
    requires few { count ≤ struct_cell_limit }
    ensures { OnOk result (out.new ≡ record out.old {
      lines = out.old.lines ++ code.at_home (code.read layout.now depth count)
          (option_map plain_home home);
    }) }
{
    match home {
        None => Ok(()),
        Some(home) => out.op(&read(layout, depth, count, home)),
    }
}

/// Puts the write of so many cells to a place, if there is one.
pub(crate) fn emit_write(
    out: &mut Emitter,
    layout: &Layout,
    depth: u32,
    count: u32,
    home: Option<Home>,
) -> Result<(), NoMemory>
    requires deep { depth < 2 ^ 29 }
    requires globals { layout.now.globals ≤ frame_limit }
    requires few { count ≤ struct_cell_limit }
    ensures { OnOk result (out.new ≡ record out.old {
      lines = out.old.lines ++ code.at_home (code.write layout.now depth count)
          (option_map plain_home home);
    }) }
{
    match home {
        None => Ok(()),
        Some(home) => out.op(&write(layout, depth, count, home)),
    }
}

/// Puts the step up of an int at a place, if there is one.
pub(crate) fn emit_increment(
    out: &mut Emitter,
    layout: &Layout,
    depth: u32,
    home: Option<Home>,
) -> Result<(), NoMemory>
    requires deep { depth < 2 ^ 29 }
    requires globals { layout.now.globals ≤ frame_limit }
    ensures { OnOk result (out.new ≡ record out.old {
      lines = out.old.lines ++ code.at_home (code.increment layout.now depth)
          (option_map plain_home home);
    }) }
{
    match home {
        None => Ok(()),
        Some(home) => out.op(&increment(layout, depth, home)),
    }
}

/// Puts the step down of an int at a place, if there is one.
pub(crate) fn emit_decrement(
    out: &mut Emitter,
    layout: &Layout,
    depth: u32,
    home: Option<Home>,
) -> Result<(), NoMemory>
    requires deep { depth < 2 ^ 29 }
    requires globals { layout.now.globals ≤ frame_limit }
    ensures { OnOk result (out.new ≡ record out.old {
      lines = out.old.lines ++ code.at_home (code.decrement layout.now depth)
          (option_map plain_home home);
    }) }
{
    match home {
        None => Ok(()),
        Some(home) => out.op(&decrement(layout, depth, home)),
    }
}

/// Puts what a name means: a variable's read, or a constant.
pub(crate) fn emit_name(
    out: &mut Emitter,
    layout: &Layout,
    ty: Ty,
    place: &Place,
    depth: u32,
) -> Result<(), NoMemory>
    requires deep { depth < 2 ^ 29 }
    requires globals { layout.now.globals ≤ frame_limit }
    requires is_type { IsType layout.now ty }
    ensures { OnOk result (out.new ≡ record out.old {
      lines = out.old.lines ++ code.name_code layout.now depth ty place.now;
    }) }
{
    let count = layout.cells(ty);
    match place {
        Place::Local(number) => {
            let home = Home::Frame(u64::from(layout.position(*number)));
            out.op(&read(layout, depth, count, home))
        }
        Place::Global(number) => {
            let home = Home::Globals(u64::from(layout.position(*number)));
            out.op(&read(layout, depth, count, home))
        }
        Place::Const(constant) => emit_constant(out, constant),
    }
}

/// Puts the step of `++` or `--` before the value of its place: nothing for the other operators.
pub(crate) fn step_before(
    out: &mut Emitter,
    layout: &Layout,
    operator: PrefixOperator,
    home: Option<Home>,
    depth: u32,
) -> Result<(), NoMemory>
    requires deep { depth < 2 ^ 29 }
    requires globals { layout.now.globals ≤ frame_limit }
    ensures { OnOk result (out.new ≡ record out.old {
      lines = out.old.lines
          ++ prefix_before layout.now depth operator (option_map plain_home home);
    }) }
{
    match operator {
        PrefixOperator::Minus => Ok(()),
        PrefixOperator::Complement => Ok(()),
        PrefixOperator::Not => Ok(()),
        PrefixOperator::Increment => emit_increment(out, layout, depth, home),
        PrefixOperator::Decrement => emit_decrement(out, layout, depth, home),
    }
}

/// Puts what an assignment reads of its place first, and gives how many cells that are.
pub(crate) fn emit_first(
    out: &mut Emitter,
    layout: &Layout,
    operator: AssignOperator,
    home: Option<Home>,
    count: u32,
    depth: u32,
) -> Result<u32, NoMemory>
    requires deep { depth < 2 ^ 29 }
    requires globals { layout.now.globals ≤ frame_limit }
    requires few { count ≤ struct_cell_limit }
    ensures lines { OnOk result (out.new ≡ record out.old {
      lines = out.old.lines
          ++ code.read_first (code.is_set operator)
          (code.at_home (code.read layout.now depth count) (option_map plain_home home));
    }) }
    ensures cells { IfOk result (λ first. first ≡ code.cells_first (code.is_set operator) count) }
{
    if is_set(operator) {
        return Ok(0);
    }
    emit_read(out, layout, depth, count, home)?;
    Ok(count)
}
