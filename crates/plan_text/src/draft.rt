ghost use Rattle.std.specs.Prelude.{◌≡◌, ◌<◌, OnOk, OnErr, IfOk, MatchBool};
ghost use Rattle.plan_text.specs.Drafts.{plain_draft, plain_word};
ghost use Rattle.plan_text.specs.Plans.{Draft as PlainDraft};
ghost use Rattle.plan_text.specs.Plans.{ReadsBehind, Reads, Plans, Lists, Adds, one_more};
ghost use Rattle.plan_text.specs.Plans.{is_listed, nothing, plan_of};
ghost use Rattle.plan_text.specs.Steps.{Took, IsWorded};
ghost use Rattle.plan_text.specs.Words as word;

use crate::fields::number_in;
use crate::plan::{Line, Listed, Plan, Planned, Script};
use crate::planned::{LAST_TIME, event_of, start_of};
use crate::words::{Word, head};
use nwq_text::{cut, is_script_name};
use nwq_value::{NoMemory, Randoms, Text};
use std::alloc::Global;

const MOST_INSTRUCTIONS: u64 = 16_777_216;

const MOST_ENTRIES: u64 = 1_000_000;

const MOST_RANDOMS: usize = 65_536;

const MOST_SCRIPTS: usize = 256;

const MOST_EVENTS: usize = 65_536;

/// What the lines so far have given.
#[derive(Drop)]
pub struct Draft {
    pub version: u8,
    pub limit: Option<u64>,
    pub entries: Option<u64>,
    pub until: Option<u64>,
    pub random: Randoms,
    pub scripts: Listed,
    pub events: Planned,
}

/// Adds the number of the digits, or answers that it can't be added.
fn add_number(random: &mut Randoms, digits: &[u8]) -> Result<bool, NoMemory>
    ensures { IfOk result (λ took. Took (λ after. one_more random.old digits.now ≡ Some after) took
        random.new) }
{
    match number_in(digits, 0, LAST_TIME) {
        Some(number) if random.len() < MOST_RANDOMS => {
            random.push(number as u32)?;
            Ok(true)
        }
        _ => Ok(false),
    }
}

/// Adds numbers that are parted by one space, or answers that they can't be added.
fn add_numbers(random: &mut Randoms, numbers: &[u8]) -> Result<bool, NoMemory>
    ensures { IfOk result (λ took. Took (Adds random.old numbers.now) took random.new) }
{
    let mut rest = numbers;
    while let Some((digits, after)) = cut(rest, b' ') {
        if !add_number(random, digits)? {
            return Ok(false);
        }
        rest = after;
    }
    let took = add_number(random, rest)?;
    Ok(took)
}

/// Whether a line says nothing: it is empty, or a remark.
fn is_passed_over(line: &[u8]) -> bool
    ensures { MatchBool result ((d : PlainDraft) → Reads d line.now d) (IsWorded line.now) }
{
    match line.split_first() {
        None => true,
        Some((first, _)) => *first == b';',
    }
}

/// Whether a script of this name is listed.
fn is_listed(scripts: &[Script], name: &[u8]) -> bool
    ensures { result ≡ is_listed name.now scripts.now }
{
    scripts.iter().any(|script| script.name.bytes() == name)
}

impl Draft {
    /// Nothing was given yet.
    pub fn new(alloc: Global, version: u8) -> Draft
        ensures { plain_draft result ≡ nothing version }
    {
        Draft {
            version,
            limit: None,
            entries: None,
            until: None,
            random: Randoms::new(alloc),
            scripts: Listed::new(alloc),
            events: Planned::new(alloc),
        }
    }

    /// The plan of what was given.
    pub fn plan(self) -> Plan
        ensures { result ≡ plan_of (plain_draft self) }
    {
        let Draft {
            version,
            limit,
            entries,
            until,
            random,
            scripts,
            events,
        } = self;
        Plan {
            version,
            limit: limit.unwrap_or(131_072),
            entries: entries.unwrap_or(10_000),
            until: until.unwrap_or(60_000),
            random,
            scripts,
            events,
        }
    }

    fn take_limit(&mut self, rest: &[u8]) -> bool
        ensures { Took (ReadsBehind word.Limit (plain_draft self.old) rest.now) result
            (plain_draft self.new) }
    {
        match (self.limit, number_in(rest, 1, MOST_INSTRUCTIONS)) {
            (None, Some(limit)) => {
                self.limit = Some(limit);
                true
            }
            _ => false,
        }
    }

    fn take_entries(&mut self, rest: &[u8]) -> bool
        ensures { Took (ReadsBehind word.Entries (plain_draft self.old) rest.now) result
            (plain_draft self.new) }
    {
        match (self.entries, number_in(rest, 1, MOST_ENTRIES)) {
            (None, Some(entries)) => {
                self.entries = Some(entries);
                true
            }
            _ => false,
        }
    }

    fn take_until(&mut self, rest: &[u8]) -> bool
        ensures { Took (ReadsBehind word.Until (plain_draft self.old) rest.now) result
            (plain_draft self.new) }
    {
        match (self.until, number_in(rest, 0, LAST_TIME)) {
            (None, Some(until)) => {
                self.until = Some(until);
                true
            }
            _ => false,
        }
    }

    fn take_random(&mut self, rest: &[u8]) -> Result<bool, NoMemory>
        ensures { IfOk result (λ took. Took (ReadsBehind word.Random (plain_draft self.old)
            rest.now) took (plain_draft self.new)) }
    {
        add_numbers(&mut self.random, rest)
    }

    fn take_script(&mut self, alloc: Global, name: &[u8], binary: bool) -> Result<bool, NoMemory>
        ensures { IfOk result (λ took. Took (Lists (plain_draft self.old)
            (record { name = name.now; binary = binary })) took (plain_draft self.new)) }
    {
        if !is_script_name(name)
            || is_listed(self.scripts.as_slice(), name)
            || self.scripts.len() >= MOST_SCRIPTS
        {
            return Ok(false);
        }
        let name = Text::of(alloc, name)?;
        self.scripts.push(Script { name, binary })?;
        Ok(true)
    }

    /// Plans one more line, where there is room.
    fn take_line(&mut self, line: Line) -> Result<bool, NoMemory>
        ensures { IfOk result (λ took. Took (Plans (plain_draft self.old) line) took
            (plain_draft self.new)) }
    {
        if self.events.len() >= MOST_EVENTS {
            return Ok(false);
        }
        self.events.push(line)?;
        Ok(true)
    }

    fn take_event(&mut self, alloc: Global, rest: &[u8]) -> Result<bool, NoMemory>
        ensures { IfOk result (λ took. Took (ReadsBehind word.Event (plain_draft self.old)
            rest.now) took (plain_draft self.new)) }
    {
        match event_of(alloc, rest)? {
            None => Ok(false),
            Some(line) => self.take_line(line),
        }
    }

    fn take_start(&mut self, alloc: Global, rest: &[u8]) -> Result<bool, NoMemory>
        ensures { IfOk result (λ took. Took (ReadsBehind word.Start (plain_draft self.old)
            rest.now) took (plain_draft self.new)) }
    {
        match start_of(alloc, rest)? {
            None => Ok(false),
            Some(line) => self.take_line(line),
        }
    }

    fn take_behind(&mut self, alloc: Global, word: Word, rest: &[u8]) -> Result<bool, NoMemory>
        ensures { IfOk result (λ took. Took (ReadsBehind (plain_word word) (plain_draft self.old)
            rest.now) took (plain_draft self.new)) }
    {
        match word {
            Word::Limit => Ok(self.take_limit(rest)),
            Word::Entries => Ok(self.take_entries(rest)),
            Word::Until => Ok(self.take_until(rest)),
            Word::Random => self.take_random(rest),
            Word::Script => self.take_script(alloc, rest, false),
            Word::Binary => self.take_script(alloc, rest, true),
            Word::Event => self.take_event(alloc, rest),
            Word::Start => self.take_start(alloc, rest),
        }
    }

    #[tactic(auto, using(crate::proofs::WordLemmas::taken, crate::proofs::WordLemmas::baffled))]
    /// Goes on by a line, or answers that it has no reading; what is there after that is of no use.
    pub fn take(&mut self, alloc: Global, line: &[u8]) -> Result<bool, NoMemory>
        ensures { IfOk result (λ took. Took (Reads (plain_draft self.old) line.now) took
            (plain_draft self.new)) }
    {
        if is_passed_over(line) {
            return Ok(true);
        }
        match head(line) {
            None => Ok(false),
            Some((word, rest)) => self.take_behind(alloc, word, rest),
        }
    }
}
