//! Whole units.

ghost use Rattle.std.specs.Prelude.{◌≡◌, ◌++◌, IfErr, IfOk, IsSome, None, OnOk, Some, map};
ghost use Rattle.std.specs.Option.{option_map};
ghost use Rattle.nss_tree.specs.Reading.{plain_item, plain_tree};
ghost use Rattle.typing_rules.specs.Meaning.{TypesUnit};
ghost use Rattle.typing_rules.specs.Nodes.{kept, two};
ghost use Rattle.typing_rules.specs.Sight.{start};
ghost use Rattle.typing_rules.specs.UnitReading.{typed_items, typed_unit};
ghost use Rattle.typing_rules.specs.Verdicts.{after_items, heads, items_faults, items_fine};
ghost use Rattle.typing_rules.specs.Verdicts.{unit_of};
ghost use Rattle.nss_scopes.specs.Views.{in_sight};
ghost use Rattle.nss_types.specs.Answers.{IsFaultOf, IsKeptFault};

use crate::entry::judge_entry;
use crate::item::items;
use nss_expressions::given::Given;
use nss_scopes::{Heads, Sight};
use nss_tree::{Item, Tree};
use nwq_value::{Items, NoMemory, Table};
use std::alloc::Global;
use std::mem;
use typing_rules::laws::verdicts_are_right;
use typing_rules::{EntryPoint, Fault, Typed, TypedItem};

/// Why a unit isn't typed.
#[derive(Clone, Copy, Debug, PartialEq, Eq)]
pub enum TypeFault {
    /// The node at fault of least token
    Fault(Fault),
    NoMemory,
}

/// The declarations that are seen behind these items, whatever is known of them before. They are
/// taken out of what is in sight.
fn seen_behind(
    alloc: Global,
    table: &Table,
    known: &Heads,
    c: &mut Sight,
    xs: &[Item],
) -> Result<Heads, NoMemory>
    ensures { IfOk result (λ h. h
        ≡ (after_items (in_sight table.now c.old) (map plain_item xs.now)).seen) }
{
    let given = Given {
        alloc,
        table,
        heads: known,
    };
    let mut ignored = None;
    let typed = items(&given, c, &mut ignored, xs)?;
    drop(typed);
    Ok(mem::replace(&mut c.seen, Heads::new(alloc)))
}

/// The declarations of a unit's functions. The walk over its items finds them.
fn declarations(alloc: Global, table: &Table, xs: &[Item]) -> Result<Heads, NoMemory>
    ensures { IfOk result (λ h. h ≡ heads table.now (map plain_item xs.now)) }
{
    let none = Heads::new(alloc);
    let mut c = Sight::start(alloc);
    let seen = seen_behind(alloc, table, &none, &mut c, xs);
    drop(c);
    drop(none);
    seen
}

/// The typed items of a unit whose functions are declared so.
fn typed_items_of(
    alloc: Global,
    table: &Table,
    heads: &Heads,
    least: &mut Option<Fault>,
    xs: &[Item],
) -> Result<Option<Items<TypedItem>>, NoMemory>
    ensures value { IfOk result (λ r. option_map typed_items r
        ≡ items_fine heads.now (start table.now) (map plain_item xs.now)) }
    ensures least { OnOk result (least.new ≡ kept least.old
        (items_faults heads.now (start table.now) (map plain_item xs.now))) }
{
    let given = Given {
        alloc,
        table,
        heads,
    };
    let mut c = Sight::start(alloc);
    let typed = items(&given, &mut c, least, xs);
    drop(c);
    typed
}

/// The typed unit, or the fault that is kept.
fn made(
    least: Option<Fault>,
    items: Option<Items<TypedItem>>,
    entry: Option<EntryPoint>,
) -> Result<Typed, Fault>
    requires typed { least ≡ None → IsSome (two (option_map typed_items items) entry) }
    ensures typed { IfOk result (λ t. option_map unit_of (two (option_map typed_items items) entry)
        ≡ Some (typed_unit t)) }
    ensures fault { IfErr result (λ f. least ≡ Some f) }
{
    match least {
        Some(fault) => {
            drop(items);
            Err(fault)
        }
        None => match items {
            Some(items) => match entry {
                Some(entry) => Ok(Typed::new(items, entry)),
                None => unreachable!(),
            },
            None => unreachable!(),
        },
    }
}

/// The typed unit or its least fault, where its functions are declared so.
fn answer_by(
    alloc: Global,
    table: &Table,
    declared: &Heads,
    tree: &Tree,
) -> Result<Result<Typed, Fault>, NoMemory>
    requires declared { declared.now ≡ heads table.now (map plain_item tree.now.items) }
    ensures typed { IfOk result (λ r. IfOk r
        (λ t. TypesUnit table.now (plain_tree tree.now) (typed_unit t))) }
    ensures fault { IfOk result (λ r. IfErr r (IsKeptFault table.now (plain_tree tree.now))) }
{
    verdicts_are_right();
    let mut least = None;
    let items = typed_items_of(alloc, table, declared, &mut least, tree.items.as_slice())?;
    let entry = judge_entry(&mut least, tree.count, declared);
    Ok(made(least, items, entry))
}

fn answer(alloc: Global, table: &Table, tree: &Tree) -> Result<Result<Typed, Fault>, NoMemory>
    ensures typed { IfOk result (λ r. IfOk r
        (λ t. TypesUnit table.now (plain_tree tree.now) (typed_unit t))) }
    ensures fault { IfOk result (λ r. IfErr r (IsKeptFault table.now (plain_tree tree.now))) }
{
    let declared = declarations(alloc, table, tree.items.as_slice())?;
    let answered = answer_by(alloc, table, &declared, tree);
    drop(declared);
    answered
}

/// The typed tree of a unit, which the rules give it, or its least fault. The tree is dropped.
pub fn type_unit(alloc: Global, tree: Tree, table: &Table) -> Result<Typed, TypeFault>
    ensures typed { IfOk result (λ t. TypesUnit table.now (plain_tree tree) (typed_unit t)) }
    ensures fault { IfErr result (IsFaultOf table.now (plain_tree tree)) }
{
    verdicts_are_right();
    let answered = answer(alloc, table, &tree);
    drop(tree);
    match answered {
        Ok(Ok(typed)) => Ok(typed),
        Ok(Err(fault)) => Err(TypeFault::Fault(fault)),
        Err(NoMemory) => Err(TypeFault::NoMemory),
    }
}
