//! Laws about the definitions, each the contract of a function that does nothing.

ghost use Rattle.table_2da.specs.Grammar.{OneTable};

/// A file has one table, or one first line that breaks a rule.
pub fn one_table()
    ensures one { OneTable }
{}
