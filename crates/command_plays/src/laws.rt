//! A law about plays of compiled files, as the contract of a function that does nothing.

ghost use Rattle.command_plays.specs.Laws.{SurePlays};

use command_files::laws::one_check;

/// The bytes of a compiled file decide what comes of their play.
pub fn one_code()
    ensures plays { SurePlays }
{
    one_check();
}
