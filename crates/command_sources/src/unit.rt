ghost use Rattle.std.specs.Prelude.{◌≡◌, ◌<◌, ◌≤◌, ℕ, List, length, map, slice_get, IsTrue, IfErr};
ghost use Rattle.std.specs.Prelude.{IfOk, OnOk};
ghost use Rattle.std.specs.Prelude.{Err, Some, None};
ghost use Rattle.nwq_outside.specs.Outside.{Contents, content};
ghost use Rattle.nss_include.specs.Units.{IsUnit};
ghost use Rattle.nwq_value.specs.Limits.{token_limit};
ghost use Rattle.nss_tree.specs.Reading.{plain_tree};
ghost use Rattle.nss_parser.specs.Sizes.{IsKnownTree};
ghost use Rattle.nss_include.specs.Gather.{Gathers, CountsGathered};
ghost use Rattle.nwq_outside.specs.declared.counts.FileCounts.{FileCounts};
ghost use Rattle.command_work.specs.Work.{Does};
ghost use Rattle.command_work.specs.Parts.{Refuses};
ghost use Rattle.command_work.specs.Counts.{Counted, TalliesEnd, Refusing, StopsSource};
ghost use Rattle.command_work.specs.Calls.{DoesOn, TalliesOn, TalliesPuts, TalliesStop};
ghost use Rattle.command_sources.specs.Reading.{HasFault, HasTree, IsCounted};
ghost use Rattle.command_sources.specs.Reads.{ReadsUnit};
ghost use Rattle.command_sources.specs.Scripts.{plain_script_answer};
ghost use Rattle.command_sources.specs.Units.{spot_at, spot_of, at_spot, unit_of};

use crate::script::Script;
use command_work::{Cause, Status, refuse_absent, refuse_at, refuse_long};
use nss_include::{GatherFault, Spot, Unit, gather};
use nss_lexer::Token;
use nss_parser::{ParseFault, parse};
use nss_tree::Tree;
use nwq_outside::{Files, Sink};
use nwq_value::NoMemory;
use std::alloc::Global;

fn token_at<'a>(tokens: &[Token<'a>], i: usize) -> Option<Token<'a>>
    ensures { result ≡ slice_get tokens.now i }
{
    tokens.get(i).copied()
}

/// The place of token `i`, or, where there is none, the end of the script's file.
fn spot_of(alloc: Global, unit: &Unit, i: usize) -> Result<Spot, NoMemory>
    requires { 0 < length unit.now.files }
    ensures { IfOk result (λ spot. spot ≡ spot_at unit.now.files unit.now.tokens i) }
{
    let tokens = unit.tokens(alloc)?;
    match token_at(tokens.as_slice(), i) {
        Some(token) => unit.spot(alloc, token.file, token.start),
        None => unit.spot(alloc, 0, unit.file_bytes(0).len() as u32),
    }
}

/// Refuses a unit at this place.
fn refuse_spot<S: Sink>(alloc: Global, cause: Cause, spot: &Spot, out: &mut S) -> Status
    ensures does { IsTrue S.tells →
        Refuses (at_spot cause spot.now) (S.taken out.old) result (S.taken out.new) }
    ensures counts { TalliesStop S.faults result out.old out.new }
    ensures only { Refusing Status.Script result }
{
    refuse_at(alloc, spot.name.bytes(), spot.line, spot.at, cause, out)
}

/// Refuses a unit at token `i`, or, where there is none, at the end of the script's file.
#[tactic(auto, using(crate::proofs::UnitLemmas::cut_refuses))]
pub fn refuse_token<S: Sink>(
    alloc: Global,
    unit: &Unit,
    i: usize,
    cause: Cause,
    out: &mut S,
) -> Status
    requires files { 0 < length unit.now.files }
    ensures does { IsTrue S.tells →
        Refuses (at_spot cause (spot_at unit.now.files unit.now.tokens i))
        (S.taken out.old) result (S.taken out.new) }
    ensures counts { TalliesStop S.faults result out.old out.new }
    ensures only { Refusing Status.Script result }
{
    match spot_of(alloc, unit, i) {
        Err(NoMemory) => Status::Memory,
        Ok(spot) => refuse_spot(alloc, cause, &spot, out),
    }
}

/// Refuses a unit at the end of the script's own file.
#[tactic(auto, using(crate::proofs::UnitLemmas::cut_refuses))]
pub fn refuse_end<S: Sink>(alloc: Global, unit: &Unit, cause: Cause, out: &mut S) -> Status
    requires files { 0 < length unit.now.files }
    ensures does { IsTrue S.tells → Refuses (at_spot cause (spot_of unit.now.files None))
        (S.taken out.old) result (S.taken out.new) }
    ensures counts { TalliesStop S.faults result out.old out.new }
    ensures only { Refusing Status.Script result }
{
    match unit.spot(alloc, 0, unit.file_bytes(0).len() as u32) {
        Err(NoMemory) => Status::Memory,
        Ok(spot) => refuse_spot(alloc, cause, &spot, out),
    }
}

/// Refuses a script that has no unit. The counts of the files are those that its fault came with.
#[tactic(auto)]
fn refuse_gather<S: Sink>(alloc: Global, fault: GatherFault, out: &mut S) -> Status
    ensures does { IsTrue S.tells → (c : Contents) (name : List ℕ) →
        Gathers (content c) name (Err fault) →
        Does (unit_of name) c (S.taken out.old) (Err result) c (S.taken out.new) }
    ensures counts { (before now : FileCounts) → IsCounted fault before now → TalliesEnd result
        (Counted before (S.faults out.old)) (Counted now (S.faults out.new)) }
    ensures only { StopsSource result }
{
    match fault {
        GatherFault::Missing(name) => refuse_absent(alloc, name.bytes(), out),
        GatherFault::Long(name) => refuse_long(alloc, name.bytes(), out),
        GatherFault::Bad(spot) => refuse_spot(alloc, Cause::Bad, &spot, out),
        GatherFault::Tokens(spot) => refuse_spot(alloc, Cause::Tokens, &spot, out),
        GatherFault::Include(spot) => refuse_spot(alloc, Cause::Include, &spot, out),
        GatherFault::Fault => Status::Fault,
        GatherFault::NoMemory => Status::Memory,
    }
}

/// The tree of a unit.
#[tactic(auto, using(crate::proofs::PlaceLemmas::seen_same))]
fn tree_of(alloc: Global, unit: &Unit) -> Result<Tree, ParseFault>
    ensures tree { IfOk result (λ tree. HasTree unit.now (plain_tree tree)) }
    ensures few { IfOk result (λ tree. (plain_tree tree).count ≤ token_limit) }
    ensures known { IfOk result (λ tree. IsKnownTree (plain_tree tree)) }
    ensures refused { IfErr result (HasFault unit.now) }
{
    let tokens = unit.tokens(alloc)?;
    match parse(alloc, tokens.as_slice()) {
        Err(fault) => Err(fault),
        Ok(tree) => Ok(tree),
    }
}

/// The script of a unit.
#[tactic(auto, using(crate::proofs::UnitLemmas::whole_does, crate::proofs::UnitLemmas::parsed))]
fn parsed<S: Sink>(alloc: Global, unit: Unit, out: &mut S) -> Result<Script, Status>
    requires { 0 < length unit.files }
    ensures does { IsTrue S.tells → (c : Contents) (name : List ℕ) →
        IsUnit (content c) name unit.tokens unit.files None →
        Does (unit_of name) c (S.taken out.old) (plain_script_answer result) c (S.taken out.new) }
    ensures tree { IfOk result (λ script. HasTree script.unit (plain_tree script.tree)) }
    ensures counts { TalliesPuts S.faults result out.old out.new }
    ensures only { IfErr result (Refusing Status.Script) }
{
    match tree_of(alloc, &unit) {
        Ok(tree) => Ok(Script { unit, tree }),
        Err(ParseFault::Nested(i)) => {
            Err(refuse_token(alloc, &unit, i as usize, Cause::Nested, out))
        }
        Err(ParseFault::Syntax(i)) => {
            Err(refuse_token(alloc, &unit, i as usize, Cause::Syntax, out))
        }
        Err(ParseFault::NoMemory) => Err(Status::Memory),
    }
}

/// The unit of the script of this name, with its tree, which is that of the unit's tokens also
/// where files don't tell what they hold.
#[tactic(auto, using(crate::proofs::UnitLemmas::has_some))]
pub fn read_unit<F: Files, S: Sink>(
    alloc: Global,
    script: &str,
    files: &mut F,
    out: &mut S,
) -> Result<Script, Status>
    ensures does { IsTrue F.tells → IsTrue S.tells → DoesOn F.contents S.taken (unit_of script.now)
        files.old out.old (plain_script_answer result) files.new out.new }
    ensures tree { IfOk result (λ script. HasTree script.unit (plain_tree script.tree)) }
    ensures counts { TalliesOn F.counts S.faults result files.old out.old files.new out.new }
    ensures same { F.contents files.new ≡ F.contents files.old }
    ensures once { IsTrue F.tells → OnOk result (ReadsUnit (F.contents files.old) script.now
        (F.reads files.old) (F.reads files.new)) }
    ensures only { IfErr result StopsSource }
{
    match gather(alloc, files, script) {
        Err(fault) => Err(refuse_gather(alloc, fault, out)),
        Ok(unit) => parsed(alloc, unit, out),
    }
}
