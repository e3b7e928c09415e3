//! The reason that is found so far.

ghost use Rattle.std.specs.Prelude.{◌≡◌};
ghost use Rattle.expression_reasons.specs.Seen.{first_of};

use crate::reason::Reason;

/// Keeps a reason, if none was found before.
pub fn note(found: &mut Option<Reason>, why: Option<Reason>)
    ensures found { found.new ≡ first_of found.old why }
{
    if found.is_none() {
        *found = why;
    }
}
