//! Why a unit is refused at a token.

ghost use Rattle.std.specs.Prelude.{◌≡◌, IfOk, None, map};
ghost use Rattle.nss_tree.specs.Reading.{plain_item, plain_tree};
ghost use Rattle.typing_rules.specs.Sight.{start};
ghost use Rattle.typing_rules.specs.Verdicts.{after_items, heads};
ghost use Rattle.nss_scopes.specs.Views.{in_sight};
ghost use Rattle.expression_reasons.specs.Seen.{seen};
ghost use Rattle.nss_reasons.specs.Reasons.{items_nodes, reason_at};

use crate::item::items;
use expression_reasons::reason::Reason;
use nss_expressions::given::Given;
use nss_scopes::{Heads, Sight};
use nss_tree::{Item, Tree};
use nss_types::item as typed;
use nwq_value::{NoMemory, Table};
use std::alloc::Global;
use std::mem;

/// The declarations that are seen behind these items, whatever is known of them before. They are
/// taken out of what is in sight.
fn seen_behind(
    alloc: Global,
    table: &Table,
    known: &Heads,
    c: &mut Sight,
    xs: &[Item],
) -> Result<Heads, NoMemory>
    ensures { IfOk result (λ h. h
        ≡ (after_items (in_sight table.now c.old) (map plain_item xs.now)).seen) }
{
    let given = Given {
        alloc,
        table,
        heads: known,
    };
    let mut ignored = None;
    let typed = typed::items(&given, c, &mut ignored, xs)?;
    drop(typed);
    Ok(mem::replace(&mut c.seen, Heads::new(alloc)))
}

/// The declarations of a unit's functions.
fn declarations(alloc: Global, table: &Table, xs: &[Item]) -> Result<Heads, NoMemory>
    ensures { IfOk result (λ h. h ≡ heads table.now (map plain_item xs.now)) }
{
    let none = Heads::new(alloc);
    let mut c = Sight::start(alloc);
    let seen = seen_behind(alloc, table, &none, &mut c, xs);
    drop(c);
    drop(none);
    seen
}

/// The reason of the node with this token, where the unit's functions are declared so.
fn reason_by(
    alloc: Global,
    table: &Table,
    declared: &Heads,
    xs: &[Item],
    token: u32,
) -> Result<Option<Reason>, NoMemory>
    ensures { IfOk result (λ r. r ≡ seen token None
        (items_nodes declared.now (start table.now) (map plain_item xs.now))) }
{
    let given = Given {
        alloc,
        table,
        heads: declared,
    };
    let mut c = Sight::start(alloc);
    let mut found = None;
    let walked = items(&given, &mut c, token, &mut found, xs);
    drop(c);
    match walked {
        Ok(()) => Ok(found),
        Err(error) => Err(error),
    }
}

/// The reason of the node with this token of a unit of these items.
fn reason_in(
    alloc: Global,
    table: &Table,
    xs: &[Item],
    token: u32,
) -> Result<Option<Reason>, NoMemory>
    ensures { IfOk result (λ r. r ≡ seen token None
        (items_nodes (heads table.now (map plain_item xs.now)) (start table.now)
        (map plain_item xs.now))) }
{
    let declared = declarations(alloc, table, xs)?;
    let reason = reason_by(alloc, table, &declared, xs, token);
    drop(declared);
    reason
}

/// Why the node of a unit with this token is refused: the first reason there of the nodes whose
/// rule doesn't fit their typed parts.
pub fn explain(
    alloc: Global,
    table: &Table,
    tree: &Tree,
    token: u32,
) -> Result<Option<Reason>, NoMemory>
    ensures reason { IfOk result (λ r. r ≡ reason_at table.now (plain_tree tree.now) token) }
{
    reason_in(alloc, table, tree.items.as_slice(), token)
}
