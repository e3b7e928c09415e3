//! Laws about plans, listed scripts and areas, each the contract of a function that does nothing.

ghost use Rattle.play_inputs.specs.Laws.{SureAreas, SurePlans, SureFinals};
ghost use Rattle.play_inputs.specs.ListingLaws.{SureListed};

use command_compile::laws::one_script;
use command_files::laws::{one_check, one_file};
use plan_text::laws::one_plan;

/// What the files hold decides what comes of an area and of a plan.
pub fn one_area()
    ensures areas { SureAreas }
    ensures plans { SurePlans }
    ensures finals { SureFinals }
{
    one_file();
    one_plan();
}

/// What the files hold decides what comes of the scripts that a plan lists.
pub fn one_listing()
    ensures listed { SureListed }
{
    one_script();
    one_check();
}
