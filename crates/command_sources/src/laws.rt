//! A law about the parts that read sources, as the contract of a function that does nothing.

ghost use Rattle.command_sources.specs.Laws.{SureTables, SureUnits};

use engine_table::laws::one_header;
use nss_include::laws::one_unit;
use nss_parser::laws::{one_refusal, one_tree};

/// What the files hold decides what comes of a header, and of a script.
pub fn one_source()
    ensures tables { SureTables }
    ensures units { SureUnits }
{
    one_header();
    one_unit();
    one_tree();
    one_refusal();
}
