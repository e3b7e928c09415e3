//! A script that is compiled anew.

ghost use Rattle.std.specs.Prelude.{◌≡◌, IfOk, IfSome, None};
ghost use Rattle.nss_include.specs.Gather.{HasScript, HoldsFiles};
ghost use Rattle.nss_include.specs.Units.{IsUnit, Lookup};
ghost use Rattle.nss_parser.specs.Sentence.{Parses};
ghost use Rattle.nss_tree.specs.Reading.{plain_tree};
ghost use Rattle.typing_rules.specs.Meaning.{TypesUnit};
ghost use Rattle.typing_rules.specs.UnitReading.{typed_unit};
ghost use Rattle.emission_rules.specs.Layout.{layout_of};
ghost use Rattle.run_places.specs.Scripts.{symbols_in};

use nss_include::{GatherFault, Unit, gather};
use nss_layout::{Layout, lay};
use nss_parser::laws::one_tree;
use nss_parser::{ParseFault, parse};
use nss_tree::Tree;
use nss_types::{TypeFault, type_unit};
use nwq_outside::Files;
use nwq_value::{NoMemory, Table};
use std::alloc::Global;
use typing_rules::Typed;

/// A script's unit, its tree, what it is typed as, and how that is laid out.
#[derive(Drop)]
pub struct Compiled {
    pub unit: Unit,
    pub tree: Tree,
    pub typed: Typed,
    pub layout: Layout,
    ghost laid: { layout ≡ layout_of (typed_unit typed) },
}

/// The tree of a unit, if it has one.
#[tactic(auto, using(crate::proofs::Same::seen_same))]
fn tree_of(alloc: Global, unit: &Unit) -> Result<Option<Tree>, NoMemory>
    ensures tree { IfOk result (λ found. IfSome found
        (λ tree. Parses (symbols_in unit.now.tokens) (plain_tree tree))) }
{
    let tokens = unit.tokens(alloc)?;
    match parse(alloc, tokens.as_slice()) {
        Ok(tree) => Ok(Some(tree)),
        Err(ParseFault::NoMemory) => Err(NoMemory),
        Err(_) => Ok(None),
    }
}

/// What a tree is typed as under a header, if it is.
fn typed_of(alloc: Global, table: &Table, tree: Tree) -> Result<Option<Typed>, NoMemory>
    ensures typed { IfOk result (λ found. IfSome found
        (λ typed. TypesUnit table.now (plain_tree tree) (typed_unit typed))) }
{
    match type_unit(alloc, tree, table) {
        Ok(typed) => Ok(Some(typed)),
        Err(TypeFault::NoMemory) => Err(NoMemory),
        Err(TypeFault::Fault(_)) => Ok(None),
    }
}

/// The script of a unit under a header. Typing drops the tree, so it is made twice.
#[tactic(auto, using(crate::proofs::Same::typed_same))]
fn script_of(alloc: Global, table: &Table, unit: Unit) -> Result<Option<Compiled>, NoMemory>
    ensures same { IfOk result (λ found. IfSome found (λ script. script.unit ≡ unit)) }
    ensures tree { IfOk result (λ found. IfSome found
        (λ script. Parses (symbols_in unit.tokens) (plain_tree script.tree))) }
    ensures typed { IfOk result (λ found. IfSome found (λ script.
        TypesUnit table.now (plain_tree script.tree) (typed_unit script.typed))) }
{
    one_tree();
    let (Some(first), Some(tree)) = (tree_of(alloc, &unit)?, tree_of(alloc, &unit)?) else {
        return Ok(None);
    };
    let Some(typed) = typed_of(alloc, table, first)? else {
        return Ok(None);
    };
    let layout = lay(alloc, &typed)?;
    Ok(Some(Compiled {
        unit,
        tree,
        typed,
        layout,
    }))
}

/// The script of this name under a header, if its files are there and it is none that the compiler
/// refuses.
pub fn compile<F: Files>(
    alloc: Global,
    table: &Table,
    name: &str,
    files: &mut F,
) -> Result<Option<Compiled>, NoMemory>
    ensures same { F.contents files.new ≡ F.contents files.old }
    ensures script { IfOk result (λ found. IfSome found
        (λ script. HasScript script.unit.files name.now)) }
    ensures unit { IfOk result (λ found. IfSome found (λ script. (lookup : Lookup) →
        HoldsFiles lookup script.unit.files →
        IsUnit lookup name.now script.unit.tokens script.unit.files None)) }
    ensures tree { IfOk result (λ found. IfSome found
        (λ script. Parses (symbols_in script.unit.tokens) (plain_tree script.tree))) }
    ensures typed { IfOk result (λ found. IfSome found (λ script.
        TypesUnit table.now (plain_tree script.tree) (typed_unit script.typed))) }
{
    match gather(alloc, files, name) {
        Ok(unit) => script_of(alloc, table, unit),
        Err(GatherFault::NoMemory) => Err(NoMemory),
        Err(_) => Ok(None),
    }
}
