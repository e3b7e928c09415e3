//! Laws about the definitions, each the contract of a function that does nothing.
ghost use Rattle.source_laws.specs.Laws.{CapturesAreCarried, EngineCallsRun};
ghost use Rattle.source_laws.specs.Laws.{EngineStatementsRun};
ghost use Rattle.source_laws.specs.EngineHost.{EngineIsRun};
ghost use Rattle.source_laws.specs.Entries.{EntriesDo};
ghost use Rattle.source_laws.specs.Executing.{ScriptsExecute};
ghost use Rattle.source_laws.specs.FunctionsRun.{FunctionsRun};
ghost use Rattle.source_laws.specs.Laws.{ExpressionsRun, StatementsRun};
ghost use Rattle.source_laws.specs.Listed.{ListedScriptsDo};
ghost use Rattle.source_laws.specs.Placing.{FunctionsStand};
ghost use Rattle.source_laws.specs.Resumes.{ResumedRun};
ghost use Rattle.source_laws.specs.Starts.{ConditionsRun, MainsRun};
ghost use Rattle.source_laws.specs.StayAlike.{EntriesKeepAlike};

use emission_rules::laws::code_stands;
use machine_rules::equality_is_tested;

/// The code of an expression in which nothing is called does what the expression means. It ends
/// behind itself with the value on top of the stack, at the next division by zero, or out of steps;
/// each step has an instruction of its own, and at most 16 instructions stand for a step.
pub fn expressions_run()
    ensures runs { ExpressionsRun }
{
    equality_is_tested();
}

/// The code of an expression that calls the engine does what the expression means: its arguments
/// from the last one to the first, with the defaults, and an action that is captured on the way.
pub fn engine_calls_run()
    ensures runs { EngineCallsRun }
{
    equality_is_tested();
}

/// A state that is captured in a listed script carries the deferred call, with the values that the
/// globals and the variables in sight have then.
pub fn captures_are_carried()
    ensures carried { CapturesAreCarried }
{}

/// The code of a statement does what the statement means: declarations, loops and `switch` with
/// `break` and `continue`, and `return`.
pub fn statements_run()
    ensures quiet { StatementsRun }
    ensures engine { EngineStatementsRun }
{
    equality_is_tested();
}

/// The functions of a script do what their calls mean, recursion among them, and so do all its
/// expressions.
pub fn functions_run()
    ensures runs { FunctionsRun }
{
    equality_is_tested();
}

/// Each function of a unit stands in the unit's code, at the label of its number.
pub fn functions_stand()
    ensures stand { FunctionsStand }
{
    code_stands();
}

/// A machine that runs in the world's own engine has the answers of the meaning, in worlds that
/// stay alike, where the answers have the routines' types.
pub fn engine_is_run()
    ensures run { EngineIsRun }
{}

/// The code of a script does what its start means, from its first instruction on: its globals are
/// made, and then its entry function runs, `void main()` or `int StartingConditional()`.
pub fn starts_run()
    ensures mains { MainsRun }
    ensures conditions { ConditionsRun }
{
    equality_is_tested();
    code_stands();
}

/// A captured state that goes on does what the deferred command means that it carries, and what it
/// captures carries a command too.
pub fn resumed_run()
    ensures runs { ResumedRun }
{
    equality_is_tested();
}

/// A script that `ExecuteScript` runs does what running it means, where each listed script does
/// what its start means: it begins in its own frame, and at its end the caller goes on behind its
/// call. So do a name that isn't listed, a target that isn't there, and a script that would run too
/// deep.
pub fn scripts_execute()
    ensures execute { ScriptsExecute }
{}

/// Listed scripts whose units are fine do what their starts mean, whatever they run, and captured
/// states of theirs do what the deferred commands mean that they carry.
pub fn listed_scripts_do()
    ensures run { ListedScriptsDo }
{
    equality_is_tested();
    code_stands();
}

/// An entry's run does what the entry means: it ends where the entry does, after at least one and
/// at most 16 instructions for each step; and where the entry wants a step more than it may take,
/// the run has made an instruction for each step and goes on.
pub fn entries_do()
    ensures run { EntriesDo }
{}

/// Worlds that are alike begin entries that are alike, and stay alike through what entries do
/// beside the scripts that they run, whatever the stored actions are.
pub fn entries_stay_alike()
    ensures alike { EntriesKeepAlike }
{}
