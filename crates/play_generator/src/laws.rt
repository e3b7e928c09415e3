//! Laws, each the contract of a function that does nothing.

ghost use Rattle.play_generator.specs.Reads.{PlanIsRead};
ghost use Rattle.play_generator.specs.Zero.{PlayOfZero, AreaOfOne};

/// The play of the number 0 is the one written out.
pub fn play_of_zero()
    ensures play { PlayOfZero }
    ensures area { AreaOfOne }
{}

/// The text of a play's plan has the plan of its rounds and creatures.
pub fn plan_is_read()
    ensures read { PlanIsRead }
{}
