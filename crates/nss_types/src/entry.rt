//! The function that a script begins with.

ghost use Rattle.std.specs.Prelude.{◌≡◌};
ghost use Rattle.std.specs.Option.{option_map};
ghost use Rattle.typing_rules.specs.Nodes.{at, fine, kept};
ghost use Rattle.typing_rules.specs.Rules.{begins, entry_rule, is_empty, is_plain, when};
ghost use Rattle.typing_rules.specs.Sight.{body_number};
ghost use Rattle.typing_rules.specs.Verdicts.{entry_verdict};
ghost use Rattle.nss_scopes.specs.Entries.{signature_of};

use crate::function::first_types;
use nss_expressions::note::note;
use nss_scopes::{Heads, Signature};
use nwq_value::{Param, Ty};
use typing_rules::rules::same_type;
use typing_rules::{EntryPoint, Fault, FaultKind};

/// Whether a function has no parameters, and this result.
fn is_plain(ty: Ty, first: Option<Option<&Signature>>) -> bool
    ensures { result ≡ is_plain ty (option_map (option_map (λ s. signature_of s.now)) first.entry) }
{
    match first {
        None => false,
        Some(None) => false,
        Some(Some(types)) => is_empty(types.params.as_slice()) && same_type(ty, types.result),
    }
}

fn is_empty(params: &[Param]) -> bool
    ensures { result ≡ is_empty params.now }
{
    match params {
        [] => true,
        [_, ..] => false,
    }
}

/// The number of the body of a function that a script can begin with.
fn begins(heads: &Heads, name: &[u8], ty: Ty) -> Option<u32>
    ensures { result ≡ when (begins name.now ty heads.now) (body_number name.now heads.now) }
{
    if !is_plain(ty, first_types(heads, name)) {
        return None;
    }
    heads.body(name)
}

fn entry(heads: &Heads) -> Option<EntryPoint>
    ensures { result ≡ entry_rule heads.now tt }
{
    match begins(heads, b"main".as_slice(), Ty::Void) {
        Some(number) => Some(EntryPoint::Main(number)),
        None => match begins(heads, b"StartingConditional".as_slice(), Ty::Int) {
            Some(number) => Some(EntryPoint::Conditional(number)),
            None => None,
        },
    }
}

/// The function that a unit of so many tokens begins with.
pub fn judge_entry(least: &mut Option<Fault>, count: u32, heads: &Heads) -> Option<EntryPoint>
    ensures value { result ≡ fine (entry_verdict heads.now) }
    ensures least { least.new ≡ kept least.old (at count (entry_verdict heads.now)) }
{
    match entry(heads) {
        Some(entry) => Some(entry),
        None => {
            note(least, FaultKind::Entry, count);
            None
        }
    }
}
