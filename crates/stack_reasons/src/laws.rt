ghost use Rattle.stack_reasons.specs.Reasons.{ReasonsRefute};

use stack_shape::rules_look_from_the_top;

/// Where there is a reason, no table of shapes meets the rules.
pub fn reasons_refute()
    ensures refute { ReasonsRefute }
{
    rules_look_from_the_top();
}
