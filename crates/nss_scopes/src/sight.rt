//! What is in sight where a node stands.

ghost use Rattle.typing_rules.specs.Sight.{case_seen, declaration_seen, default_seen};
ghost use Rattle.std.specs.Prelude.{◌≡◌, ◌+◌, ◌≤◌, ◌<◌, None, Some, IfOk, OnErr, OnOk};
ghost use Rattle.std.specs.Option.{option_map};
ghost use Rattle.nwq_value.specs.Engine.{EngineTable};
ghost use Rattle.typing_rules.specs.Sight.{function_begun, cell_limit, cells_if, counted_to_limit};
ghost use Rattle.typing_rules.specs.Sight.{crosses};
ghost use Rattle.typing_rules.specs.Sight.{crosses_with, declared, scope_entered, frame_with};
ghost use Rattle.typing_rules.specs.Sight.{inside};
ghost use Rattle.typing_rules.specs.Sight.{is_of_header, is_taken, is_taken_by_other, looped};
ghost use Rattle.typing_rules.specs.Sight.{start, switched, variable_of};
ghost use Rattle.nss_scopes.specs.Entries.{variable_limit};
ghost use Rattle.nss_scopes.specs.Slots.{meaning_of};
ghost use Rattle.nss_scopes.specs.Views.{in_sight, left_by, mark_of, with_int};

use crate::budget::{VARIABLES, one_more};
use crate::heads::Heads;
use crate::labels::Labels;
use crate::names::{Meaning, Names};
use crate::structs::Structs;
use nwq_value::{Const, NoMemory, Table, Text, Ty};
use std::alloc::Global;
use std::mem;

/// How many cells a frame has at most, and the global variables.
const FRAME_CELLS: u32 = 4000;

const GLOBAL_CELLS: u32 = 4000;

/// What is in sight where a node stands, but for the header.
#[derive(Drop)]
pub struct Sight {
    pub names: Names,
    /// How many of them stand outside the scope
    pub scope: usize,
    /// The number of the next variable
    pub next: u32,
    /// The cells of the frame, or of the globals, counted to one past the limit
    pub frame: u32,
    pub structs: Structs,
    /// The declarations of functions so far
    pub seen: Heads,
    /// Outside all functions
    pub at_file: bool,
    /// The result of the function, where it is typed
    pub result: Option<Ty>,
    /// `continue` may stand here
    pub in_loop: bool,
    /// `break` may stand here
    pub may_break: bool,
    /// Of the switch whose body this is directly
    pub labels: Option<Labels>,
}

/// What a scope changes, as it was outside.
#[derive(Drop)]
pub struct Mark {
    names: usize,
    scope: usize,
    frame: u32,
    at_file: bool,
    result: Option<Ty>,
    in_loop: bool,
    may_break: bool,
    labels: Option<Labels>,
}

/// So many cells more, counted to one past the limit.
pub fn counted(limit: u32, before: u32, more: u32) -> u32
    requires limit { limit ≤ 4000 }
    ensures count { result ≡ counted_to_limit limit before more }
{
    if before > limit || more > limit {
        return limit + 1;
    }
    let sum = before + more;
    if sum > limit { limit + 1 } else { sum }
}

/// Whether the limit is passed here, and wasn't before.
pub fn crosses(limit: u32, before: u32, now: u32) -> bool
    ensures test { result ≡ crosses limit before now }
{
    before <= limit && limit < now
}

/// The number after this one, if a variable of this number is within the budget.
fn number_after(number: u32) -> Result<u32, NoMemory>
    ensures next { IfOk result (λ next. next ≡ number + 1) }
    ensures few { OnOk result (number < variable_limit) }
    ensures spent { OnErr result (variable_limit ≤ number) }
{
    one_more(number as usize, VARIABLES)?;
    Ok(number + 1)
}

impl Sight {
    /// At the beginning of a unit.
    pub fn start(alloc: Global) -> Sight
        ensures start { (table : EngineTable) → in_sight table result ≡ start table }
    {
        Sight {
            names: Names::new(alloc),
            scope: 0,
            next: 0,
            frame: 0,
            structs: Structs::new(alloc),
            seen: Heads::new(alloc),
            at_file: true,
            result: None,
            in_loop: false,
            may_break: false,
            labels: None,
        }
    }

    fn cell_limit(&self) -> u32
        ensures limit { (table : EngineTable) → result ≡ cell_limit (in_sight table self.now) }
        ensures bound { result ≤ 4000 }
    {
        if self.at_file {
            GLOBAL_CELLS
        } else {
            FRAME_CELLS
        }
    }

    /// The cells of the frame with so many more.
    pub fn frame_with(&self, cells: u32) -> u32
        ensures frame { (table : EngineTable)
            → result ≡ frame_with (in_sight table self.now) cells }
    {
        counted(self.cell_limit(), self.frame, cells)
    }

    /// Whether so many cells more pass the limit here.
    pub fn crosses_with(&self, cells: u32) -> bool
        ensures crosses { (table : EngineTable)
            → result ≡ crosses_with (in_sight table self.now) cells }
    {
        crosses(self.cell_limit(), self.frame, self.frame_with(cells))
    }

    /// Whether a declared name stood before where it may stand once.
    pub fn is_taken(&self, table: &Table, name: &[u8]) -> bool
        ensures taken { result ≡ is_taken (in_sight table.now self.now) name.now }
    {
        if self.at_file {
            self.names.has_since(0, name) || self.seen.has(name) || is_of_header(table, name)
        } else {
            self.names.has_since(self.scope, name)
        }
    }

    /// Whether a function's name stood before as another thing's.
    pub fn is_taken_by_other(&self, table: &Table, name: &[u8]) -> bool
        ensures taken { result ≡ is_taken_by_other (in_sight table.now self.now) name.now }
    {
        self.names.has_since(0, name) || is_of_header(table, name)
    }

    /// A name is declared with this type. `NoMemory` comes where memory is refused, and past the
    /// budget of 4,294,967,295 variables; after it nothing is told of what is in sight.
    pub fn declare(&mut self, alloc: Global, name: &Text, ty: Option<Ty>) -> Result<(), NoMemory>
        ensures declared { OnOk result ((table : EngineTable)
            → in_sight table self.new ≡ declared (in_sight table self.old) name.now ty) }
        ensures few { OnOk result (self.old.next < variable_limit) }
    {
        let called = name.copy(alloc)?;
        let next = number_after(self.next)?;
        let cells = self.cells_if(ty);
        let frame = self.frame_with(cells);
        let means = self.variable(ty);
        self.names.declare(called, means)?;
        self.next = next;
        self.frame = frame;
        Ok(())
    }

    fn cells_if(&self, ty: Option<Ty>) -> u32
        ensures cells { (table : EngineTable)
            → result ≡ cells_if (in_sight table self.now).structs ty }
    {
        match ty {
            Some(ty) => self.structs.cells(ty),
            None => 0,
        }
    }

    fn variable(&self, ty: Option<Ty>) -> Option<Meaning>
        ensures variable { (table : EngineTable) → option_map meaning_of result
            ≡ option_map (variable_of (in_sight table self.now)) ty }
    {
        match ty {
            Some(ty) => Some(Meaning::Variable {
                number: self.next,
                is_local: !self.at_file,
                ty,
            }),
            None => None,
        }
    }

    /// What a scope changes; the labels are taken out.
    fn mark(&mut self) -> Mark
        ensures mark { result ≡ mark_of self.old }
        ensures inside { self.new ≡ record self.old { labels = None } }
    {
        Mark {
            names: self.names.len(),
            scope: self.scope,
            frame: self.frame,
            at_file: self.at_file,
            result: self.result,
            in_loop: self.in_loop,
            may_break: self.may_break,
            labels: mem::replace(&mut self.labels, None),
        }
    }

    /// The statement of an `if` begins.
    pub fn inside(&mut self) -> Mark
        ensures mark { result ≡ mark_of self.old }
        ensures inside { (table : EngineTable)
            → in_sight table self.new ≡ inside (in_sight table self.old) }
    {
        self.mark()
    }

    /// A block begins.
    pub fn enter(&mut self) -> Mark
        ensures mark { result ≡ mark_of self.old }
        ensures entered { (table : EngineTable)
            → in_sight table self.new ≡ scope_entered (in_sight table self.old) }
    {
        let mark = self.mark();
        self.scope = self.names.len();
        mark
    }

    /// The statement of a loop begins.
    pub fn enter_loop(&mut self) -> Mark
        ensures mark { result ≡ mark_of self.old }
        ensures looped { (table : EngineTable)
            → in_sight table self.new ≡ looped (in_sight table self.old) }
    {
        let mark = self.mark();
        self.in_loop = true;
        self.may_break = true;
        mark
    }

    /// The body of a switch begins.
    pub fn enter_switch(&mut self, alloc: Global) -> Mark
        ensures mark { result ≡ mark_of self.old }
        ensures switched { (table : EngineTable)
            → in_sight table self.new ≡ switched (in_sight table self.old) }
    {
        let frame = self.frame_with(1);
        let mark = self.mark();
        self.scope = self.names.len();
        self.may_break = true;
        self.frame = frame;
        self.labels = Some(Labels::new(alloc));
        mark
    }

    /// A function with this result begins.
    pub fn begin(&mut self, ty: Option<Ty>) -> Mark
        ensures mark { result ≡ mark_of self.old }
        ensures begun { (table : EngineTable)
            → in_sight table self.new ≡ function_begun (in_sight table self.old) ty }
    {
        let mark = self.mark();
        self.scope = self.names.len();
        self.frame = 0;
        self.at_file = false;
        self.result = ty;
        self.in_loop = false;
        self.may_break = false;
        mark
    }

    /// A case of this value stands here. After `NoMemory` nothing is told of what is in sight.
    pub fn see_case(&mut self, value: &Const) -> Result<(), NoMemory>
        ensures seen { OnOk result ((table : EngineTable) → in_sight table self.new
            ≡ case_seen (in_sight table self.old) (Some value.now)) }
    {
        match value {
            Const::Int(value) => self.see_int(*value),
            Const::Text(_) | Const::SelfObject | Const::InvalidObject => Ok(()),
        }
    }

    fn see_int(&mut self, value: i32) -> Result<(), NoMemory>
        ensures seen { OnOk result
            (self.new ≡ record self.old { labels = option_map (with_int value) self.old.labels }) }
    {
        match &mut self.labels {
            Some(labels) => labels.add_case(value),
            None => Ok(()),
        }
    }

    /// A `default` stands here.
    pub fn see_default(&mut self)
        ensures seen { (table : EngineTable)
            → in_sight table self.new ≡ default_seen (in_sight table self.old) }
    {
        match &mut self.labels {
            Some(labels) => labels.add_default(),
            None => {}
        }
    }

    /// A declaration stands here.
    pub fn see_declaration(&mut self)
        ensures seen { (table : EngineTable)
            → in_sight table self.new ≡ declaration_seen (in_sight table self.old) }
    {
        match &mut self.labels {
            Some(labels) => labels.add_declaration(),
            None => {}
        }
    }

    /// What began with a mark is left: all is as before it, but for the numbers of variables, the
    /// structs and the declarations of functions.
    pub fn leave(&mut self, mark: Mark)
        ensures left { self.new ≡ left_by mark self.old }
    {
        self.names.truncate(mark.names);
        self.scope = mark.scope;
        self.frame = mark.frame;
        self.at_file = mark.at_file;
        self.result = mark.result;
        self.in_loop = mark.in_loop;
        self.may_break = mark.may_break;
        self.labels = mark.labels;
    }
}

/// Whether the name is one of the header's.
fn is_of_header(table: &Table, name: &[u8]) -> bool
    ensures { result ≡ is_of_header name.now table.now }
{
    table.by_name(name).is_some() || table.constant(name).is_some()
}
