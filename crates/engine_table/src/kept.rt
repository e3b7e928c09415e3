//! A law about the tables of headers, as the contract of a function that does nothing.

ghost use Rattle.engine_table.specs.KeptTables.{BuiltInIsTable, HeadersHaveTables};

use crate::laws::{built_in_has_table, clear_lines_are_admissible};
use nss_lexer::laws::values_are_bytes;

/// The table of a header keeps what every table keeps, where its text is bytes; and so does the
/// table of the built-in header.
pub fn headers_have_tables()
    ensures read { HeadersHaveTables }
    ensures built_in { BuiltInIsTable }
{
    values_are_bytes();
    clear_lines_are_admissible();
    built_in_has_table();
}
