ghost use Rattle.stack_rules.specs.Laws.{ContinuesSafely, FittingHoldsValues, KeptHoldsValues};
ghost use Rattle.stack_rules.specs.Laws.{RunsSafely, ScriptsAreSound};
ghost use Rattle.stack_rules.specs.Laws.{StartsSafely, StatesAreSound, StepsSafely};
ghost use Rattle.stack_rules.specs.Laws.{TablesTypeExecuteScript};

use machine_rules::effects_are_followed;
use nwq_value::header::roles_tell;
use stack_shape::{effects_pop_values, rules_look_from_the_top};

/// In each table of a header, the routine that runs another script takes a name and a target and
/// gives nothing.
pub fn tables_type_execute_script()
    ensures typed { TablesTypeExecuteScript }
{
    roles_tell();
}

/// A listed script starts safely, and so does a captured state that fits.
pub fn entries_begin_safely()
    ensures scripts { StartsSafely }
    ensures states { ContinuesSafely }
{}

/// In a world of any kind, a step from a safe state is taken, and leads to a safe state.
pub fn steps_are_safe<W>()
    ensures steps { StepsSafely W }
{
    entries_begin_safely();
    effects_are_followed();
    effects_pop_values();
    rules_look_from_the_top();
}

/// No run of well-stacked scripts has a stack fault: neither from a safe state, nor of a listed
/// script from its start, nor of a captured state that fits.
pub fn runs_are_sound<W>()
    ensures runs { RunsSafely W }
    ensures scripts { ScriptsAreSound W }
    ensures states { StatesAreSound W }
{
    entries_begin_safely();
    steps_are_safe::<W>();
}

/// A captured state that fits a table of shapes holds values alone, and so does each state that a
/// world keeps, where what it keeps was handed to it by engine calls of well-stacked scripts.
pub fn states_hold_values<W>()
    ensures fitting { FittingHoldsValues }
    ensures kept { KeptHoldsValues W }
{}
