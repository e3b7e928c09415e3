//! A law about the definitions, as the contract of a function that does nothing.

ghost use Rattle.nss_include.specs.Units.{OneUnit};

use nss_lexer::laws::one_split;

/// A script has one unit, or one first fault.
pub fn one_unit()
    ensures one { OneUnit }
{
    one_split();
}
