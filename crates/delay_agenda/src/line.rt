//! The line beside the queues: entries that came one behind the other, as they are taken.
ghost use Rattle.std.specs.Prelude.{◌≡◌, None, true, MatchBool};
ghost use Rattle.delay_agenda.specs.Queues.{in_row, turning, AllBefore, AreQueues, AreRising};
ghost use Rattle.delay_agenda.specs.Queues.{IsInInbox, IsInQueues};

use crate::entry::{Entry, comes_before};
use crate::queues::{Queues, first_of};
use std::collections::VecDeque;

/// Whether an entry may stand in the line, behind all others there: it is no Turn, and each of them
/// is taken before it.
#[tactic(auto, using(crate::proofs::LineLemmas::behind_facts))]
pub(crate) fn goes_behind<X>(line: &VecDeque<Entry<X>>, entry: &Entry<X>) -> bool
    requires rising { AreRising line.now.items }
    ensures behind { result ≡ true → AllBefore entry.now line.now.items }
    ensures bare { result ≡ true → turning entry.now.kind ≡ None }
{
    if entry.turning().is_some() {
        return false;
    }
    if line.is_empty() {
        return true;
    }
    line[line.len() - 1].comes_before(entry)
}

/// Whether the first of the line is taken before all of the queues.
#[tactic(auto, using(crate::proofs::Placing::first_cases, crate::proofs::LineLemmas::least_first))]
pub(crate) fn line_is_first<X: Drop>(line: &VecDeque<Entry<X>>, queues: &Queues<X>) -> bool
    requires queues { AreQueues queues.now.entries }
    requires rising { AreRising line.now.items }
    ensures first { MatchBool result (IsInInbox 0 line.now.items (in_row queues.now.entries))
        (IsInQueues line.now.items (in_row queues.now.entries)) }
{
    if line.is_empty() {
        return false;
    }
    match first_of(queues) {
        None => true,
        Some((due, number)) => !comes_before(due, number, &line[0]),
    }
}
