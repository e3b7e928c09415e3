//! Laws about the definitions, each the contract of a function that does nothing.

ghost use Rattle.engine_table.specs.Headers.{OneHeader};
ghost use Rattle.engine_table.specs.Laws.{BuiltInHasTable, ClearLinesAreAdmissible};

use nss_lexer::laws::{computed_tokens, one_first, one_split, some_split};

/// Each text has a table or a first fault, and only one.
pub fn one_header()
    ensures one { OneHeader }
{
    one_first();
    one_split();
    some_split();
}

/// The text of the built-in header has the table of its data.
pub fn built_in_has_table()
    ensures table { BuiltInHasTable }
{
    computed_tokens();
}

/// What a clear line declares, the table of the lines before it may take: the name is free, there
/// is room, and types and values are within bounds.
pub fn clear_lines_are_admissible()
    ensures admissible { ClearLinesAreAdmissible }
{}
