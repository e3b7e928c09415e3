//! Laws about the definitions, each the contract of a function that does nothing.

ghost use Rattle.plan_text.specs.Plans.{FaultsLieInside, OnePlan, PlansKeep};

use nwq_text::escapes_apart;

/// A text has one plan, or one first line without a reading.
pub fn one_plan()
    ensures one { OnePlan }
{
    escapes_apart();
}

/// Every plan of a text keeps its limits, its scripts have distinct names, and each line is one
/// that can be written.
pub fn plans_keep()
    ensures keep { PlansKeep }
{}

/// The first bad line is a line of the text, or the first one where there is none.
pub fn faults_lie_inside()
    ensures inside { FaultsLieInside }
{}
