//! Laws about reasons, each the contract of a function that does nothing.

ghost use Rattle.reason_laws.specs.Laws.{EachFaultHasItsReason};

use typing_rules::laws::verdicts_are_right;

/// At a node that the rules of types refuse for its arguments, its place or its types, there is a
/// reason, which is of the fault's kind.
pub fn faults_have_reasons()
    ensures reason { EachFaultHasItsReason }
{
    verdicts_are_right();
}
