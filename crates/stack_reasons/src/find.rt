ghost use Rattle.std.specs.Prelude.{IfOk, IfSome};
ghost use Rattle.stack_rules.specs.Rules.{WellStacked};
ghost use Rattle.stack_reasons.specs.Reasons.{IsReason};
ghost use Rattle.stack_reasons.specs.Walks.{IsHome};

use crate::home::{Home, Judged};
use crate::laws::reasons_refute;
use crate::means::all_means;
use crate::reason::Reason;
use crate::trail::Walked;
use crate::walk::walk;
use ncs_file::Code;
use nwq_value::{NoMemory, Table};
use stack_shape::{Entry, Shape, Slots, Unders};
use std::alloc::Global;

/// So many calls deep a search goes.
const MOST_CALLS: u32 = 200;

/// The script's start.
fn start(alloc: Global, judged: &Judged<'_>) -> Home
    ensures { IsHome judged.now.table.now judged.now.code.now result }
{
    let _ = judged;
    Home {
        entry: Entry::Start,
        called_at: None,
        at: 13,
        first: Shape {
            cells: Slots::new(alloc),
            under: Slots::new(alloc),
            saved: Unders::new(alloc),
            pending: 0,
        },
    }
}

/// A reason why no table of shapes meets the rules for the code under this header, if one is found:
/// a run over shapes is followed step by step, both ways at a jump that looks at a cell and over
/// each call. The search takes a thousand steps and four for each instruction at most, so none is
/// found where a routine is called with ever larger stacks, or where the steps end before the place
/// is reached.
#[tactic(auto, using(crate::proofs::Walking::finding))]
pub fn find_reason(alloc: Global, code: &Code, table: &Table) -> Result<Option<Reason>, NoMemory>
    // A run comes to the place with these cells, and there it can't go on.
    ensures reason { IfOk result (λ reason. IfSome reason (λ reason. IsReason table.now code.now
        reason)) }
    // So no table meets the rules.
    ensures refuted { IfOk result (λ reason. IfSome reason (λ _. WellStacked table.now code.now
        → ⊥)) }
{
    reasons_refute();
    let judged = Judged { code, table };
    let home = start(alloc, &judged);
    match all_means(alloc, code) {
        Err(error) => {
            drop(home);
            Err(error)
        }
        Ok(means) => {
            let mut means = means;
            let walked = walk(alloc, &judged, &home, MOST_CALLS, &mut means);
            drop(home);
            drop(means);
            match walked {
                Err(error) => Err(error),
                Ok(Walked::Found(reason)) => Ok(Some(reason)),
                Ok(Walked::Ended(last)) => {
                    drop(last);
                    Ok(None)
                }
            }
        }
    }
}
