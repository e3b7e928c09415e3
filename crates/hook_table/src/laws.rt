//! Laws about the definitions, each the contract of a function that does nothing.

ghost use Rattle.hook_table.specs.Served.{AreTheHeaders, StandardServe, FirstGrow, LastCompletes};

/// The functions that hooks answer for are the built-in header's Pure ones, and hooks that begin
/// with one for each serve every routine with such a role.
pub fn standard_hooks_serve()
    ensures header { AreTheHeaders }
    ensures serve { StandardServe }
{}

/// A program that puts a hook for one function after the other ends with standard hooks.
pub fn standard_hooks_are_put_one_by_one()
    ensures grow { FirstGrow }
    ensures complete { LastCompletes }
{}
