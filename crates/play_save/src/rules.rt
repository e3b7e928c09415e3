//! The rules that a state keeps, in their order.
ghost use Rattle.std.specs.Prelude.{◌≡◌, ◌≤◌, length, IfOk, IfErr, MatchResult};
ghost use Rattle.nwq_value.specs.Limits.{script_limit};
ghost use Rattle.play_save.specs.Rules.{HasAgenda, HasStates, HasTexts, HasTurns, IsAccepted};
ghost use Rattle.play_save.specs.Rules.{KeepsLimits};
ghost use Rattle.play_save.specs.Breaking.{Breaks, BreaksFirst, BreaksLast, IsPreparedFor};

use crate::fault::StateFault;
use crate::fitting::{entries_fit, objects_fit};
use crate::limits::test_limits;
use crate::prepare::{Prepared, prepare};
use crate::turns::are_settled;
use crate::waiting::test_agenda;
use engine_table::laws::one_header;
use ncs_code::spelling_laws;
use stack_check::fits_too;
use state_format::Parts;
use std::alloc::Global;

/// Whether each captured state fits the code of its script.
fn test_states(alloc: Global, parts: &Parts, prepared: &Prepared) -> Result<(), StateFault>
    requires prepared { IsPreparedFor parts.now prepared.now }
    requires few { length parts.now.scripts ≤ script_limit }
    requires texts { HasTexts parts.now }
    ensures kept { MatchResult result (λ _. HasStates parts.now)
        (Breaks 6 (HasStates parts.now)) }
{
    let scripts = &prepared.scripts;
    spelling_laws();
    fits_too();
    one_header();
    if !objects_fit(alloc, scripts, parts.objects.as_slice())? {
        return Err(StateFault::Unfit(6));
    }
    if !entries_fit(alloc, scripts, parts.agenda.as_slice())? {
        return Err(StateFault::Unfit(6));
    }
    Ok(())
}

/// Whether an object has a Turn exactly where it is busy.
fn test_turns(alloc: Global, parts: &Parts) -> Result<(), StateFault>
    requires agenda { HasAgenda parts.now }
    ensures kept { MatchResult result (λ _. HasTurns parts.now)
        (Breaks 7 (HasTurns parts.now)) }
{
    if are_settled(alloc, parts.objects.as_slice(), parts.agenda.as_slice())? {
        Ok(())
    } else {
        Err(StateFault::Unfit(7))
    }
}

/// The last two rules of a state that keeps those before.
#[tactic(auto, using(crate::proofs::Testing::last_states, crate::proofs::Testing::last_turns))]
fn test_last(alloc: Global, parts: &Parts, prepared: &Prepared) -> Result<(), StateFault>
    requires prepared { IsPreparedFor parts.now prepared.now }
    requires few { length parts.now.scripts ≤ script_limit }
    requires texts { HasTexts parts.now }
    requires agenda { HasAgenda parts.now }
    ensures states { IfOk result (λ _. HasStates parts.now) }
    ensures turns { IfOk result (λ _. HasTurns parts.now) }
    ensures broken { IfErr result (BreaksLast parts.now) }
{
    match test_states(alloc, parts, prepared) {
        Err(fault) => Err(fault),
        Ok(()) => test_turns(alloc, parts),
    }
}

/// The rules behind the limits of a state that keeps those before.
#[tactic(auto, using(crate::proofs::Testing::few_of, crate::proofs::Testing::breaks_agenda, crate::proofs::Testing::breaks_last, crate::proofs::Testing::all_kept))]
fn test_within(alloc: Global, parts: &Parts, prepared: &Prepared) -> Result<(), StateFault>
    requires prepared { IsPreparedFor parts.now prepared.now }
    requires limits { KeepsLimits parts.now }
    ensures kept { MatchResult result (λ _. IsAccepted parts.now) (BreaksFirst parts.now) }
{
    let tested = test_agenda(
        alloc,
        parts.next,
        parts.clock,
        parts.objects.len(),
        parts.agenda.as_slice(),
    );
    match tested {
        Err(fault) => Err(fault),
        Ok(()) => test_last(alloc, parts, prepared),
    }
}

/// The rules of a state whose header, scripts and area are there.
#[tactic(auto, using(crate::proofs::Testing::breaks_limits))]
fn test_rest(alloc: Global, parts: &Parts, prepared: &Prepared) -> Result<(), StateFault>
    requires prepared { IsPreparedFor parts.now prepared.now }
    ensures kept { MatchResult result (λ _. IsAccepted parts.now) (BreaksFirst parts.now) }
{
    match test_limits(alloc, parts) {
        Err(fault) => Err(fault),
        Ok(()) => test_within(alloc, parts, prepared),
    }
}

/// What a state's bytes are of, where it keeps all rules; or the first that it breaks.
pub(crate) fn test_parts(alloc: Global, parts: &Parts) -> Result<Prepared, StateFault>
    ensures kept { MatchResult result (λ _. IsAccepted parts.now) (BreaksFirst parts.now) }
    ensures prepared { IfOk result (IsPreparedFor parts.now) }
{
    match prepare(alloc, parts) {
        Err(fault) => Err(fault),
        Ok(prepared) => match test_rest(alloc, parts, &prepared) {
            Err(fault) => {
                drop(prepared);
                Err(fault)
            }
            Ok(()) => Ok(prepared),
        },
    }
}
