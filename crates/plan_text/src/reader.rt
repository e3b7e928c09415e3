//! The plan of a whole text, line by line.

ghost use Rattle.std.specs.Prelude.{◌≡◌, IfOk, IfErr};
ghost use Rattle.plan_text.specs.Drafts.{plain_draft};
ghost use Rattle.plan_text.specs.Plans.{HasPlan, IsFaulty};
ghost use Rattle.plan_text.specs.Steps.{version_in, ReadsOn, PlanStopsAt};

use crate::draft::Draft;
use crate::fault::PlanFault;
use crate::plan::Plan;
use nwq_text::Lines;
use std::alloc::Global;

/// The version of the plan that begins with this line.
#[tactic(auto, unfolding(crate::specs::Steps::version_in))]
fn version_of(line: &[u8]) -> Option<u8>
    ensures { result ≡ version_in line.now }
{
    if line == b"NWQ PLAN 1".as_slice() {
        Some(1)
    } else if line == b"NWQ PLAN 2".as_slice() {
        Some(2)
    } else {
        None
    }
}

/// Reads the lines behind the first.
fn read_lines(alloc: Global, version: u8, lines: &mut Lines<'_>) -> Result<Draft, PlanFault>
    requires { lines.old.read ≡ 1 }
    ensures plan { IfOk result (λ draft. ReadsOn version lines.old.left (plain_draft draft)) }
    ensures fault { IfErr result (PlanStopsAt version lines.old.left) }
{
    let mut draft = Draft::new(alloc, version);
    while let Some(line) = lines.next_line() {
        if !draft.take(alloc, line.bytes)? {
            drop(draft);
            return Err(PlanFault::Line(line.number));
        }
    }
    Ok(draft)
}

/// The plan of a text, or the first line that has no reading.
pub fn read_plan(alloc: Global, bytes: &[u8]) -> Result<Plan, PlanFault>
    ensures plan { IfOk result (λ plan. HasPlan bytes.now plan) }
    ensures fault { IfErr result (IsFaulty bytes.now) }
{
    let mut lines = Lines::of(bytes);
    let Some(first) = lines.next_line() else {
        return Err(PlanFault::Line(1));
    };
    let Some(version) = version_of(first.bytes) else {
        return Err(PlanFault::Line(1));
    };
    match read_lines(alloc, version, &mut lines) {
        Err(fault) => Err(fault),
        Ok(draft) => Ok(draft.plan()),
    }
}
