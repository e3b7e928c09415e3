//! A law, the contract of a function that does nothing.

ghost use Rattle.nss_scopes.specs.Laws.{ScopesAreLeft};

use typing_rules::laws::scopes_only_add;

/// Once a scope is left all is as before it, but for the numbers of variables.
pub fn scopes_are_left()
    ensures left { ScopesAreLeft }
{
    scopes_only_add();
}
