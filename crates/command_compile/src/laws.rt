//! A law about scripts, as the contract of a function that does nothing.

ghost use Rattle.command_compile.specs.Laws.{SureTyped, SureCompiled, SureCompiles};

use command_sources::laws::one_source;
use typing_rules::laws::{one_typed, typed_exactly, verdicts_are_right};

/// What the files hold decides which typed unit and which file a script has, and what comes of
/// compiling it.
pub fn one_script()
    ensures typed { SureTyped }
    ensures compiled { SureCompiled }
    ensures command { SureCompiles }
{
    one_typed();
    typed_exactly();
    verdicts_are_right();
    one_source();
}
