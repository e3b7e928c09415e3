ghost use Rattle.std.specs.Prelude.{◌≡◌, ℕ, IsTrue, IfErr, IfOk};
ghost use Rattle.nwq_outside.specs.Outside.{next};
ghost use Rattle.command_work.specs.Counts.{StopsArea};
ghost use Rattle.command_work.specs.Calls.{DoesOn, TalliesOn};
ghost use Rattle.plan_text.specs.Plans.{IsPlan};
ghost use Rattle.play_inputs.specs.Plans.{plan_named};
ghost use Rattle.play_inputs.specs.Reads.{HasPlanFile};

use command_work::{AreaFlaw, Status, read_file, refuse_area};
use nwq_outside::{Files, Sink};
use plan_text::laws::plans_keep;
use plan_text::{Plan, PlanFault, read_plan};
use std::alloc::Global;

/// The plan of the file of this name. Every plan that is read keeps its limits.
#[tactic(auto, using(crate::proofs::Steps::steps, crate::proofs::PlanLemmas::plans), unfolding(crate::specs::Plans::plan_named))]
pub fn read_plan_file<F: Files, S: Sink>(
    alloc: Global,
    name: &str,
    files: &mut F,
    out: &mut S,
) -> Result<Plan, Status>
    ensures does { IsTrue F.tells → IsTrue S.tells → DoesOn F.contents S.taken (plan_named name.now)
        files.old out.old result files.new out.new }
    ensures counts { TalliesOn F.counts S.faults result files.old out.old files.new out.new }
    ensures same { F.contents files.new ≡ F.contents files.old }
    ensures once { F.reads files.new ≡ next (F.reads files.old) }
    ensures has { IsTrue F.tells → IsTrue S.tells →
        IfOk result (HasPlanFile (F.contents files.old) name.now) }
    ensures keeps { IfOk result IsPlan }
    ensures only { IfErr result StopsArea }
{
    plans_keep();
    match read_file(alloc, name, files, out) {
        Err(status) => Err(status),
        Ok(bytes) => match read_plan(alloc, bytes.as_slice()) {
            Ok(plan) => Ok(plan),
            Err(PlanFault::Line(line)) => {
                Err(refuse_area(alloc, name.as_bytes(), AreaFlaw::Line(line), out))
            }
            Err(PlanFault::NoMemory) => Err(Status::Memory),
        },
    }
}
