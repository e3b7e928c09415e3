//! Laws about plays made from numbers, as the contract of a function that does nothing.

ghost use Rattle.command_generate.specs.Laws.{AreasAreWhole, SureGenerated};

use command_compile::laws::one_script;
use command_files::laws::one_check;

/// One thing comes of a number.
pub fn one_generated()
    ensures generated { SureGenerated }
{
    one_script();
    one_check();
}

/// The area that is made breaks no rule of areas.
pub fn made_areas_are_whole()
    ensures whole { AreasAreWhole }
{}
