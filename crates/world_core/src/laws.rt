ghost use Rattle.world_core.specs.Answers.{AnswersHaveTypes};

use nwq_value::header::roles_tell;

/// A call of a routine that can be called has an answer of the routine's result type, in every
/// world and for all arguments.
pub fn answers_have_types<X>()
    ensures typed { AnswersHaveTypes X }
{
    roles_tell();
}
