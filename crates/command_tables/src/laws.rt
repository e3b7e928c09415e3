//! A law about tables, as the contract of a function that does nothing.

ghost use Rattle.command_tables.specs.Laws.{SureTables};

use table_2da::laws::one_table;

/// What the files hold decides which tables a command is given.
pub fn one_set_of_tables()
    ensures tables { SureTables }
{
    one_table();
}
