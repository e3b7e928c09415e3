ghost use Rattle.std.specs.Prelude.{◌≡◌, ◌<◌, ◌≤◌, ◌+◌, ℕ, Bool, length, OnOk, IfOk, IfErr};
ghost use Rattle.std.specs.Prelude.{IsTrue};
ghost use Rattle.nwq_outside.specs.Outside.{content, next};
ghost use Rattle.std.specs.String.{string_bytes};
ghost use Rattle.std.specs.Str.{IsUtf8};
ghost use Rattle.nwq_value.specs.Limits.{token_limit};
ghost use Rattle.nss_include.specs.declared.step.Step.TheVariants as step;
ghost use Rattle.nss_include.specs.Names.{file_name};
ghost use Rattle.nss_include.specs.Units.{Lookup, IsUnit, HaveDistinctNames};
ghost use Rattle.nss_include.specs.Gather.{CountsGathered, HoldsFiles, Claims, HasScript, Gathers};
ghost use Rattle.nss_include.specs.Gather.{AreReadOnce};
ghost use Rattle.nss_include.specs.View.{file_count_limit};
ghost use Rattle.nss_include.specs.Progress.{Reads, ReadFails, Extends};
ghost use Rattle.nss_include.specs.Progress.{IsOwnFault, BeginsWithScript, ComesTo};

use crate::fault::GatherFault;
use crate::opened::{Open, OpenFiles};
use crate::step::{Span, Step, next_step};
use crate::unit::Unit;
use nss_lexer::laws::{one_first, some_split};
use nwq_outside::{Files, Read};
use nwq_value::{Items, NoMemory, Text};
use std::alloc::Global;

/// How many tokens a unit has at most, a directive being three.
const MOST_TOKENS: u32 = 100_000;

/// The file of a script or an include of this name.
#[tactic(auto, unfolding(crate::specs::Names::file_name))]
fn file_of(alloc: Global, name: &[u8]) -> Result<String, NoMemory>
    requires { IsUtf8 name.now }
    ensures { IfOk result (λ file. string_bytes file ≡ file_name name.now) }
{
    let mut file = String::from_utf8_lossy(alloc, name)?;
    file.make_ascii_lowercase();
    file.push_str(".nss")?;
    Ok(file)
}

/// Reads a file into the unit.
fn read_into<F: Files>(
    alloc: Global,
    files: &mut F,
    unit: &mut Unit,
    name: &str,
) -> Result<(), GatherFault>
    requires { length unit.old.files < file_count_limit }
    ensures reads { OnOk result (Reads F.tells
        (content (F.contents files.old)) unit.old unit.new name.now) }
    ensures fails { IfErr result (ReadFails F.tells
        (content (F.contents files.old)) name.now) }
    ensures same { F.contents files.new ≡ F.contents files.old }
    ensures once { OnOk result (F.reads files.new ≡ next (F.reads files.old)) }
    ensures counts { CountsGathered result (F.counts files.old) (F.counts files.new) }
{
    // The name of a refusal is made before the read: so want of memory for it raises no count.
    let refused = Text::of(alloc, name.as_bytes())?;
    match files.read(alloc, name) {
        Read::Bytes(bytes) => {
            let copy = Items::of_slice(alloc, name.as_bytes())?;
            unit.open(copy, Items::of_vec(bytes))?;
            Ok(())
        }
        Read::Missing => Err(GatherFault::Missing(refused)),
        Read::Failed => Err(GatherFault::Fault),
        Read::Long => Err(GatherFault::Long(refused)),
        Read::NoMemory => Err(GatherFault::NoMemory),
    }
}

/// A unit while its files are read.
#[derive(Drop)]
pub struct Gatherer {
    pub unit: Unit,
    pub stack: OpenFiles,
    /// How many tokens were counted, a directive being three.
    pub count: u32,
}

impl Gatherer {
    ghost use Rattle.nss_include.specs.Progress.{
      HasStep,
      Ends,
      IsOrderly,
      Advances,
      StopsBy,
      Halts,
      reopened,
      passed,
      Includes,
    };

    /// Goes on behind a token.
    fn give(&mut self, alloc: Global, here: Open, span: Span) -> Result<(), GatherFault>
        requires ready { IsOrderly (reopened here self.old) }
        requires step { HasStep self.old here (step.Gives span) }
        ensures advances { OnOk result ((tells : Bool) (outside : Lookup)
            → Advances tells outside (reopened here self.old) self.new) }
        ensures files { OnOk result (self.new.unit.files ≡ self.old.unit.files) }
        ensures own { IfErr result IsOwnFault }
        ensures stops { IfErr result (StopsBy (reopened here self.old)) }
    {
        if self.count == MOST_TOKENS {
            return Err(GatherFault::Tokens(self.unit.spot(alloc, here.file, span.start)?));
        }
        self.unit.push(span)?;
        self.count += 1;
        self.stack.push(Open {
            file: here.file,
            at: span.end,
        })?;
        Ok(())
    }

    /// Goes on behind a directive.
    fn pass(&mut self, here: Open, after: u32) -> Result<(), NoMemory>
        requires { self.old.count + 3 ≤ token_limit }
        ensures { OnOk result (self.new ≡ passed self.old here after) }
    {
        self.stack.push(Open {
            file: here.file,
            at: after,
        })?;
        self.count += 3;
        Ok(())
    }

    /// Goes on in a file that is new to the unit, and then behind the directive.
    fn include<F: Files>(
        &mut self,
        alloc: Global,
        files: &mut F,
        here: Open,
        name: &str,
        after: u32,
    ) -> Result<(), GatherFault>
        requires ready { IsOrderly (reopened here self.old) }
        requires room { self.old.count + 3 ≤ token_limit }
        ensures includes { OnOk result (Includes F.tells
            (content (F.contents files.old)) self.old self.new here name.now after) }
        ensures fails { IfErr result (ReadFails F.tells
            (content (F.contents files.old)) name.now) }
        ensures same { F.contents files.new ≡ F.contents files.old }
        ensures once { OnOk result (F.reads files.new ≡ next (F.reads files.old)) }
        ensures counts { CountsGathered result (F.counts files.old) (F.counts files.new) }
    {
        self.pass(here, after)?;
        let number = self.unit.count() as u16;
        read_into(alloc, files, &mut self.unit, name)?;
        self.stack.push(Open {
            file: number,
            at: 0,
        })?;
        Ok(())
    }

    /// Goes on behind a directive that names an include.
    fn mention<F: Files>(
        &mut self,
        alloc: Global,
        files: &mut F,
        here: Open,
        hash: u32,
        name: &Text,
        after: u32,
    ) -> Result<(), GatherFault>
        requires ready { IsOrderly (reopened here self.old) }
        requires step { HasStep self.old here (step.Mentions hash name.now after) }
        ensures advances { OnOk result (Advances F.tells
            (content (F.contents files.old)) (reopened here self.old) self.new) }
        ensures halts { IfErr result (Halts F.tells
            (content (F.contents files.old)) (reopened here self.old)) }
        ensures same { F.contents files.new ≡ F.contents files.old }
        // Where each of the files so far was read once, so is this one.
        ensures once { OnOk result ((start : ℕ)
            → AreReadOnce self.old.unit.files start (F.reads files.old)
            → AreReadOnce self.new.unit.files start (F.reads files.new)) }
        ensures counts { CountsGathered result (F.counts files.old) (F.counts files.new) }
    {
        if self.count + 3 > MOST_TOKENS {
            return Err(GatherFault::Tokens(self.unit.spot(alloc, here.file, hash)?));
        }
        let file = file_of(alloc, name.bytes())?;
        if self.unit.has(file.as_bytes()) {
            self.pass(here, after)?;
            Ok(())
        } else {
            match self.include(alloc, files, here, file.as_str(), after) {
                Ok(()) => Ok(()),
                Err(fault) => Err(fault),
            }
        }
    }

    /// What the file goes on with here.
    #[tactic(auto, using(crate::proofs::ProgressLemmas::has_step))]
    fn step_at(&self, alloc: Global, here: Open) -> Result<Step, NoMemory>
        requires { IsOrderly (reopened here self.now) }
        ensures { IfOk result (HasStep self.now here) }
    {
        let step = next_step(alloc, self.unit.file_bytes(here.file), here.file, here.at)?;
        Ok(step)
    }

    /// Goes on here by a step.
    fn advance<F: Files>(
        &mut self,
        alloc: Global,
        files: &mut F,
        here: Open,
    ) -> Result<(), GatherFault>
        requires { IsOrderly (reopened here self.old) }
        ensures advances { OnOk result (Advances F.tells
            (content (F.contents files.old)) (reopened here self.old) self.new) }
        ensures halts { IfErr result (Halts F.tells
            (content (F.contents files.old)) (reopened here self.old)) }
        ensures same { F.contents files.new ≡ F.contents files.old }
        ensures once { OnOk result ((start : ℕ)
            → AreReadOnce self.old.unit.files start (F.reads files.old)
            → AreReadOnce self.new.unit.files start (F.reads files.new)) }
        ensures counts { CountsGathered result (F.counts files.old) (F.counts files.new) }
    {
        match self.step_at(alloc, here)? {
            Step::Ends => Ok(()),
            Step::Breaks(place) => Err(GatherFault::Bad(self.unit.spot(alloc, here.file, place)?)),
            Step::Gives(span) => match self.give(alloc, here, span) {
                Ok(()) => Ok(()),
                Err(fault) => Err(fault),
            },
            Step::Mentions(hash, name, after) => match self.mention(
                alloc, files, here, hash, &name, after,
            ) {
                Ok(()) => Ok(()),
                Err(fault) => Err(fault),
            },
            Step::Misses(place) => Err(GatherFault::Include(
                self.unit.spot(alloc, here.file, place)?,
            )),
        }
    }

    /// Reads all open files to their ends.
    fn run<F: Files>(&mut self, alloc: Global, files: &mut F) -> Result<(), GatherFault>
        requires { IsOrderly self.old }
        ensures whole { OnOk result ((lookup : Lookup)
            → HoldsFiles lookup self.new.unit.files
            → Ends lookup self.old self.new.unit.tokens self.new.unit.files self.new.count None) }
        ensures keeps { OnOk result ((lookup : Lookup)
            → HoldsFiles lookup self.new.unit.files → HoldsFiles lookup self.old.unit.files) }
        ensures grows { OnOk result (Extends self.old.unit.files self.new.unit.files) }
        ensures distinct { OnOk result (HaveDistinctNames self.new.unit.files) }
        ensures holds { IsTrue F.tells → HoldsFiles
            (content (F.contents files.old)) self.old.unit.files → OnOk result (HoldsFiles
            (content (F.contents files.old)) self.new.unit.files) }
        ensures stops { IsTrue F.tells → HoldsFiles
            (content (F.contents files.old)) self.old.unit.files → IfErr result
            (λ fault. Claims fault (ComesTo (content (F.contents files.old)) self.old fault)) }
        ensures same { F.contents files.new ≡ F.contents files.old }
        ensures once { OnOk result ((start : ℕ)
            → AreReadOnce self.old.unit.files start (F.reads files.old)
            → AreReadOnce self.new.unit.files start (F.reads files.new)) }
        ensures counts { CountsGathered result (F.counts files.old) (F.counts files.new) }
    {
        while let Some(here) = self.stack.pop() {
            match self.advance(alloc, files, here) {
                Ok(()) => {}
                Err(fault) => return Err(fault),
            }
        }
        Ok(())
    }
}

/// Begins to gather the unit of a script with its file.
#[tactic(auto, using(crate::proofs::ReadLemmas::first_one))]
fn begin<F: Files>(alloc: Global, files: &mut F, script: &str) -> Result<Gatherer, GatherFault>
    ensures begins { IfOk result (λ gatherer. BeginsWithScript F.tells
        (content (F.contents files.old)) gatherer script.now) }
    ensures fails { IfErr result (ReadFails F.tells
        (content (F.contents files.old)) (file_name script.now)) }
    ensures same { F.contents files.new ≡ F.contents files.old }
    ensures once { IfOk result (λ gatherer.
        AreReadOnce gatherer.unit.files (F.reads files.old) (F.reads files.new)) }
    ensures counts { CountsGathered result (F.counts files.old) (F.counts files.new) }
{
    let file = file_of(alloc, script.as_bytes())?;
    let mut stack = OpenFiles::new(alloc);
    stack.push(Open { file: 0, at: 0 })?;
    let mut unit = Unit::new(alloc);
    match read_into(alloc, files, &mut unit, file.as_str()) {
        Ok(()) => Ok(Gatherer {
            unit,
            stack,
            count: 0,
        }),
        Err(fault) => Err(fault),
    }
}

/// The unit of a script: its tokens and those of its includes, or its first fault. Letters A to Z
/// count as a to z in the name. A read that fails ends the work at once: of the counts none rises
/// but that of the answer.
pub fn gather<F: Files>(alloc: Global, files: &mut F, name: &str) -> Result<Unit, GatherFault>
    // The unit is that of its files, whatever else there is.
    ensures unit { IfOk result (λ unit. (lookup : Lookup) → HoldsFiles lookup unit.files
        → IsUnit lookup name.now unit.tokens unit.files None) }
    ensures script { IfOk result (λ unit. HasScript unit.files name.now) }
    ensures distinct { IfOk result (λ unit. HaveDistinctNames unit.files) }
    ensures told { IsTrue F.tells → Gathers (content (F.contents files.old)) name.now result }
    ensures same { F.contents files.new ≡ F.contents files.old }
    // Each of the files was read, and once.
    ensures once { IfOk result
        (λ unit. AreReadOnce unit.files (F.reads files.old) (F.reads files.new)) }
    ensures counts { CountsGathered result (F.counts files.old) (F.counts files.new) }
{
    one_first();
    some_split();
    match begin(alloc, files, name) {
        Err(fault) => Err(fault),
        Ok(mut gatherer) => match gatherer.run(alloc, files) {
            Err(fault) => Err(fault),
            Ok(()) => {
                let Gatherer {
                    unit,
                    stack: _,
                    count: _,
                } = gatherer;
                Ok(unit)
            }
        },
    }
}
