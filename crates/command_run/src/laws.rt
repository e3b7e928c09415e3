//! A law about runs, as the contract of a function that does nothing.

ghost use Rattle.command_run.specs.Laws.{SureRuns};

use command_compile::laws::one_script;
use command_plays::laws::one_code;
use command_sources::laws::one_source;

/// What the files hold decides what comes of a run.
pub fn one_run()
    ensures runs { SureRuns }
{
    one_source();
    one_script();
    one_code();
}
