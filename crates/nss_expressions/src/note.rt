//! The least fault so far.

ghost use Rattle.std.specs.Prelude.{◌≡◌};
ghost use Rattle.typing_rules.specs.Nodes.{earlier};

use typing_rules::{Fault, FaultKind};

/// Keeps a fault if no other one has a lesser token or the same.
pub fn note(least: &mut Option<Fault>, kind: FaultKind, token: u32)
    ensures kept { least.new ≡ earlier least.old (record { kind = kind; token = token }) }
{
    let is_less = match least {
        Some(kept) => token < kept.token,
        None => true,
    };
    if is_less {
        *least = Some(Fault { kind, token });
    }
}
