ghost use Rattle.std.specs.Prelude.{◌≡◌, ◌≤◌, ◌+◌, ◌↔◌, IfOk, Err, IsTrue, length};
ghost use Rattle.stack_rules.specs.Tables.{ShapeTable};
ghost use Rattle.stack_rules.specs.Fits.{Fits};
ghost use Rattle.stack_rules.specs.Rules.{MeetsRules, WellStacked};
ghost use Rattle.stack_check.specs.Checked.{IsWithinBudget, StoredStand, kept_table, most_turns};
ghost use Rattle.stack_check.specs.Costs.{most_looks};
ghost use Rattle.stack_lists.specs.Budget.{most, most_numbers};
ghost use Rattle.stack_check.specs.declared.fault.CheckFault.TheVariants.{Unstacked};

use crate::facts::Facts;
use crate::fault::CheckFault;
use crate::fits::fits;
use crate::infer::{Kept, infer};
use ncs_file::Code;
use nwq_value::Table;
use saved_state::Saved;
use stack_lists::Heap;
use std::alloc::Global;
use std::marker::Model;

/// Code that is well stacked under a header, with a table of shapes that meets the rules.
pub struct Checked {
    code: Code,
    heap: Heap,
    facts: Facts,
    turns: u64,
    looks: u64,
    calls: usize,
}

impl Model for Checked {
    ghost use Rattle.stack_check.specs.Checked.{CheckedCode};

    ghost Value = { CheckedCode };

    ghost view = { λ c. record {
      code = c.code;
      heap = c.heap;
      facts = c.facts;
      turns = c.turns;
      looks = c.looks;
      calls = c.calls;
    } };
}

impl Drop for Checked {
    fn drop(self) {
        let Checked {
            code,
            heap,
            facts,
            turns: _,
            looks: _,
            calls: _,
        } = self;
        drop(code);
        drop(heap);
        drop(facts);
    }
}

/// What is kept is within its budget.
fn bounded(heap: &Heap, facts: &Facts)
    ensures rows { length facts.now.rows ≤ most }
    ensures nodes { length heap.now.slots ≤ most }
    ensures saved { length heap.now.saved ≤ most_numbers }
{
    let _rows = facts.rows.len();
    let _nodes = heap.slots.len();
    let _saved = heap.saved.len();
}

/// The code with a table of shapes that meets the rules under this header, or `Unstacked` exactly
/// where there is none. `NoMemory` comes where memory is refused, past 2^25 rows, nodes of lists of
/// slots or nodes of lists of calls, past 2^27 slots that calls and stored states put on other
/// lists, and past 2^32 - 1 nodes of saved lists. The code is dropped on a refusal.
#[tactic(auto, using(crate::proofs::Ending::checking))]
pub fn check(alloc: Global, code: Code, table: &Table) -> Result<Checked, CheckFault>
    // What was handed in is kept.
    ensures code { IfOk result (λ c. c.code ≡ code) }
    // The kept table meets the rules, so the code is well stacked.
    ensures meets { IfOk result (λ c. MeetsRules table.now code (kept_table c)) }
    // What it says of stored states stands in every table that meets the rules.
    ensures stored { IfOk result (λ c. (other : ShapeTable) → MeetsRules table.now code other
        → StoredStand (kept_table c) other) }
    // No table that is kept passes the budget.
    ensures within { IfOk result (λ c. IsWithinBudget c) }
    // Each turn but the last finds a row, what a routine gives, or a slot of a window.
    ensures turns { IfOk result (λ c. c.turns ≤ most_turns c) }
    // Each turn hands in the calls that are kept at most, and four spots, and what was handed in is
    // looked at once.
    ensures looks { IfOk result (λ c. c.looks ≤ most_looks (most_turns c) c.calls + 1) }
    // Each call that is kept is of a row of its own.
    ensures calls { IfOk result (λ c. c.calls ≤ length c.facts.rows) }
    // Where no table is found there is none.
    ensures unstacked { result ≡ Err Unstacked → WellStacked table.now code → ⊥ }
{
    match infer(alloc, &code, table)? {
        None => Err(CheckFault::Unstacked),
        Some(kept) => {
            let Kept {
                heap,
                facts,
                turns,
                looks,
                calls,
            } = kept;
            bounded(&heap, &facts);
            Ok(Checked {
                code,
                heap,
                facts,
                turns,
                looks,
                calls,
            })
        }
    }
}

impl Checked {
    /// The code, as it was handed in.
    pub fn code(&self) -> &Code
        ensures code { result.now ≡ self.now.code }
    {
        &self.code
    }

    /// How many turns the inference took.
    pub fn turns(&self) -> u64
        ensures turns { result ≡ self.now.turns }
    {
        self.turns
    }

    /// How many looks at a place it took, up to the largest number.
    pub fn looks(&self) -> u64
        ensures looks { result ≡ self.now.looks }
    {
        self.looks
    }

    /// Whether a captured state of this code fits the kept table: it resumes where a STORE_STATE
    /// says, on cells of the types that this one stores. The number of its script isn't looked at.
    #[tactic(auto, unfolding(crate::specs::Checked::kept_table))]
    pub fn fits(&self, saved: &Saved) -> bool
        ensures fits { IsTrue result ↔ Fits (kept_table self.now) saved.now }
    {
        fits(&self.heap, &self.facts, saved)
    }
}
