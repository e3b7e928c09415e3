ghost use Rattle.std.specs.Prelude.{◌≡◌, ◌==◌, if◌then◌else◌, ◌<◌, ◌≤◌, ◌+◌, [], ◌∷◌, ◌++◌};
ghost use Rattle.std.specs.Prelude.{false, length, is_some, Some, None};
ghost use Rattle.std.specs.Prelude.{IfOk, IfErr, IfSome, OnErr, OnOk};
ghost use Rattle.nwq_value.specs.Engine.{IsConstant, constant_named, routine_named};
ghost use Rattle.nwq_value.specs.Limits.{parameter_limit};
ghost use Rattle.engine_table.specs.declared.symbol.Symbol.TheVariants as symbol;
ghost use Rattle.engine_table.specs.declared.declaration.Declaration.TheVariants as declaration;
ghost use Rattle.engine_table.specs.declared.stage.Owner.TheVariants as owner;
ghost use Rattle.engine_table.specs.declared.stage.Stage.TheVariants as stage;
ghost use Rattle.engine_table.specs.Grammar as grammar;
ghost use Rattle.engine_table.specs.Headers as header;
ghost use Rattle.engine_table.specs.Turns as turns;
ghost use Rattle.engine_table.specs.Held.{IsCounted, const_held, default_held, held_limit};
ghost use Rattle.engine_table.specs.Held.{params_held};
ghost use Rattle.engine_table.specs.Turns.{Answers, IsOpen, KeepsDeclaration, depth_of, known_of};

use crate::declaration::{Declaration, Declared, Function};
use crate::fault::HeaderFault;
use crate::stage::{Owner, Stage, Turn};
use crate::symbol::{Sign, Symbol, Word};
use crate::words::Words;
use nwq_value::{Const, NoMemory, Param, Params, Routine, Table, Text, Ty, role_of};
use std::alloc::Global;

/// How many functions a header has at most.
const MOST_FUNCTIONS: usize = 65_535;

/// How many parameters a function has at most.
const MOST_PARAMETERS: usize = 255;

/// How many bytes the strings of a table have at most, all together. A short line can name a long
/// constant, so that without this a header could ask for a thousand times its size.
const MOST_TEXT: usize = 268_435_456;

/// What the lines so far have made known: the names that are type words, and the table, whose
/// strings have so many bytes.
#[derive(Drop)]
pub struct Known {
    pub words: Words,
    pub table: Table,
    text: usize,
}

// ---- what tokens are by themselves

/// The type that a word is.
fn word_type(word: Word) -> Option<Ty>
    ensures { result ≡ grammar.word_type word }
{
    match word {
        Word::Void => Some(Ty::Void),
        Word::Int => Some(Ty::Int),
        Word::String => Some(Ty::Text),
        Word::Object => Some(Ty::Object),
        Word::Effect => Some(Ty::Effect),
        Word::Action => Some(Ty::Action),
        Word::Event => Some(Ty::Event),
        Word::OtherType => Some(Ty::Refused),
        Word::Const | Word::ObjectSelf | Word::ObjectInvalid | Word::Other => None,
    }
}

/// Whether the type has constants.
fn has_constants(ty: Ty) -> bool
    ensures { result ≡ grammar.has_constants ty }
{
    matches!(ty, Ty::Int | Ty::Text | Ty::Object)
}

/// Whether the constant has this type.
fn has_type(constant: &Const, ty: Ty) -> bool
    ensures { result ≡ grammar.has_type constant.now ty }
{
    match constant {
        Const::Int(_) => matches!(ty, Ty::Int),
        Const::Text(_) => matches!(ty, Ty::Text),
        Const::SelfObject | Const::InvalidObject => matches!(ty, Ty::Object),
    }
}

/// The number that one decimal digit writes.
fn digit_of(bytes: &[u8]) -> Option<u8>
    ensures { result ≡ grammar.digit_of bytes.now }
{
    match bytes {
        [digit] => {
            if *digit >= b'0' && *digit <= b'9' {
                Some(*digit - b'0')
            } else {
                None
            }
        }
        _ => None,
    }
}

/// The number of the engine's structure that a define of this name speaks of.
#[tactic(auto, unfolding(crate::specs::Grammar::structure_of))]
fn structure_of(name: &[u8]) -> Option<u8>
    ensures { result ≡ grammar.structure_of name.now }
{
    if name.len() < 17 {
        return None;
    }
    let (prefix, digit) = name.split_at(17);
    if prefix == b"ENGINE_STRUCTURE_".as_slice() {
        digit_of(digit)
    } else {
        None
    }
}

/// What a define with a name as its value declares.
fn defined_name(structure: Option<u8>, name: Text) -> Option<Declaration>
    ensures { result ≡ grammar.defined structure (symbol.Name name) }
{
    match structure {
        None => Some(Declaration::Passed),
        Some(number) => {
            if number > 1 {
                Some(Declaration::TypeWord(name))
            } else {
                None
            }
        }
    }
}

/// Whether a define may have this word as its value.
fn may_define(structure: Option<u8>, word: Word) -> bool
    ensures { grammar.defined structure (symbol.Word word)
        ≡ (if result then Some declaration.Passed else None) }
{
    match structure {
        None => true,
        Some(number) => match word {
            Word::Effect => number == 0,
            Word::Event => number == 1,
            _ => true,
        },
    }
}

/// What a define with this value declares; `None` where it can't have it.
fn defined(structure: Option<u8>, value: Symbol) -> Option<Declaration>
    ensures { result ≡ grammar.defined structure value }
{
    match value {
        Symbol::Name(name) => defined_name(structure, name),
        Symbol::Word(word) => {
            if may_define(structure, word) {
                Some(Declaration::Passed)
            } else {
                None
            }
        }
        Symbol::Int(_) => Some(Declaration::Passed),
        _ => None,
    }
}

/// How many brackets are open behind a token of a loose value, inside so many; `None` where it ends
/// the value.
fn brackets(depth: u32, symbol: &Symbol) -> Option<u32>
    requires few { depth < 4294967295 }
    ensures { result ≡ grammar.brackets depth symbol.now }
{
    match symbol {
        Symbol::Sign(sign) => brackets_by(depth, *sign),
        _ => Some(depth),
    }
}

/// The same for a sign.
fn brackets_by(depth: u32, sign: Sign) -> Option<u32>
    requires few { depth < 4294967295 }
    ensures { result ≡ grammar.brackets depth (symbol.Sign sign) }
{
    match sign {
        Sign::Open | Sign::Opening => Some(depth + 1),
        Sign::Close => end_or(depth, depth.saturating_sub(1)),
        Sign::Closing => Some(depth.saturating_sub(1)),
        Sign::Comma | Sign::Semicolon => end_or(depth, depth),
        _ => Some(depth),
    }
}

/// The end of a value outside brackets, and else so many of them.
fn end_or(depth: u32, inside: u32) -> Option<u32>
    ensures { result ≡ (if depth == 0 then None else Some inside) }
{
    if depth == 0 { None } else { Some(inside) }
}

/// The int that a `-` before a literal of this number makes.
fn negative(number: u32) -> Const
    ensures { result ≡ grammar.negative number }
{
    Const::Int(number.cast_signed().wrapping_neg())
}

/// How many bytes the constant's string has.
fn text_bytes(constant: &Const) -> usize
    ensures { result ≡ const_held constant.now }
{
    match constant {
        Const::Text(text) => text.bytes().len(),
        _ => 0,
    }
}

/// Counts bytes of strings that the table is to hold. It fails exactly where they pass the budget.
fn hold(text: &mut usize, bytes: usize) -> Result<(), NoMemory>
    requires few { text.old ≤ held_limit }
    ensures held { OnOk result (text.new ≡ text.old + bytes) }
    ensures few { OnOk result (text.new ≤ held_limit) }
    ensures passed { OnErr result (held_limit < text.old + bytes) }
{
    if bytes > MOST_TEXT - *text {
        Err(NoMemory)
    } else {
        *text += bytes;
        Ok(())
    }
}

/// Counts the bytes of a parameter's default.
fn hold_default(text: &mut usize, param: &Param) -> Result<(), NoMemory>
    requires few { text.old ≤ held_limit }
    ensures held { OnOk result (text.new ≡ text.old + default_held param.now.default) }
    ensures few { OnOk result (text.new ≤ held_limit) }
    ensures passed { OnErr result (held_limit < text.old + default_held param.now.default) }
{
    match &param.default {
        Some(constant) => hold(text, text_bytes(constant)),
        None => Ok(()),
    }
}

/// Counts the bytes of the defaults.
fn hold_defaults(text: &mut usize, params: &[Param]) -> Result<(), NoMemory>
    requires few { text.old ≤ held_limit }
    ensures held { OnOk result (text.new ≡ text.old + params_held params.now) }
    ensures few { OnOk result (text.new ≤ held_limit) }
    ensures passed { OnErr result (held_limit < text.old + params_held params.now) }
{
    for param in params {
        hold_default(text, param)?;
    }
    Ok(())
}

/// Whether the constants are equal.
#[tactic(auto, unfolding(crate::specs::Headers::same_const))]
fn same(a: &Const, b: &Const) -> bool
    ensures { result ≡ header.same_const a.now b.now }
{
    match (a, b) {
        (Const::Int(a), Const::Int(b)) => *a == *b,
        (Const::Text(a), Const::Text(b)) => a.bytes() == b.bytes(),
        (Const::SelfObject, Const::SelfObject) => true,
        (Const::InvalidObject, Const::InvalidObject) => true,
        _ => false,
    }
}

// ---- turns that depend on nothing known

fn misfit(place: u32) -> Result<Turn, HeaderFault>
    ensures { result ≡ turns.misfit place }
{
    Err(HeaderFault::Header(place))
}

fn hash_turn(place: u32, symbol: Symbol) -> Result<Turn, HeaderFault>
    ensures { result ≡ turns.hash_turn place symbol }
{
    match symbol {
        Symbol::Name(name) => {
            if name.bytes() == b"define".as_slice() {
                Ok(Turn::Goes(Stage::Define))
            } else {
                misfit(place)
            }
        }
        _ => misfit(place),
    }
}

fn define_turn(place: u32, symbol: Symbol) -> Result<Turn, HeaderFault>
    ensures { result ≡ turns.define_turn place symbol }
{
    match symbol {
        Symbol::Name(name) => Ok(Turn::Goes(Stage::Defined(name))),
        _ => misfit(place),
    }
}

fn defined_turn(name: &[u8], place: u32, symbol: Symbol) -> Result<Turn, HeaderFault>
    ensures turn { result ≡ turns.defined_turn name.now place symbol }
{
    match defined(structure_of(name), symbol) {
        Some(declaration) => Ok(Turn::Gives(declaration, false)),
        None => misfit(place),
    }
}

fn typed_turn(constant: bool, ty: Ty, place: u32, symbol: Symbol) -> Result<Turn, HeaderFault>
    ensures { result ≡ turns.typed_turn constant ty place symbol }
{
    match symbol {
        Symbol::Name(name) => Ok(Turn::Goes(Stage::Named(constant, Declared { ty, place, name }))),
        _ => misfit(place),
    }
}

fn closed_turn(function: Function, place: u32, symbol: Symbol) -> Result<Turn, HeaderFault>
    ensures { result ≡ turns.closed_turn function place symbol }
{
    match symbol {
        Symbol::Sign(Sign::Semicolon) => Ok(Turn::Gives(Declaration::Function(function), false)),
        _ => misfit(place),
    }
}

/// A token behind the value of a constant.
fn constant_end(
    head: Declared,
    value: Option<Const>,
    new: bool,
    place: u32,
    symbol: Symbol,
) -> Result<Turn, HeaderFault>
    ensures { result ≡ turns.constant_end head value new place symbol }
{
    match symbol {
        Symbol::Sign(Sign::Semicolon) => Ok(Turn::Gives(Declaration::Constant(head, value), new)),
        _ => misfit(place),
    }
}

/// One more parameter at the function's end.
fn with_param(function: Function, param: Param) -> Result<Function, NoMemory>
    ensures { IfOk result (λ f. f ≡ record function { params = function.params ++ param ∷ [] }) }
{
    let Function { head, mut params } = function;
    params.push(param)?;
    Ok(Function { head, params })
}

/// A token behind a parameter.
fn param_turn(
    function: Function,
    param: Param,
    place: u32,
    symbol: Symbol,
) -> Result<Turn, HeaderFault>
    ensures { Answers (turns.param_turn function param place symbol) result }
{
    match symbol {
        Symbol::Sign(Sign::Comma) => {
            if function.params.len() < MOST_PARAMETERS - 1 {
                Ok(Turn::Goes(Stage::Param(with_param(function, param)?)))
            } else {
                misfit(place)
            }
        }
        Symbol::Sign(Sign::Close) => Ok(Turn::Goes(Stage::Closed(with_param(function, param)?))),
        _ => misfit(place),
    }
}

/// A token behind a value.
fn valued_turn(
    owner: Owner,
    value: Option<Const>,
    new: bool,
    place: u32,
    symbol: Symbol,
) -> Result<Turn, HeaderFault>
    ensures { Answers (turns.valued_turn owner value new place symbol) result }
{
    match owner {
        Owner::Constant(head) => constant_end(head, value, new, place, symbol),
        Owner::Parameter(function, ty) => {
            let param = Param { ty, default: value };
            param_turn(function, param, place, symbol)
        }
    }
}

/// A token behind the type and the name of a parameter.
fn behind_turn(function: Function, ty: Ty, place: u32, symbol: Symbol) -> Result<Turn, HeaderFault>
    ensures { Answers (turns.behind_turn function ty place symbol) result }
{
    match symbol {
        Symbol::Sign(Sign::Equals) => {
            Ok(Turn::Goes(Stage::Value(Owner::Parameter(function, ty))))
        }
        _ => {
            let param = Param { ty, default: None };
            param_turn(function, param, place, symbol)
        }
    }
}

/// A token behind the type of a parameter.
fn param_type_turn(
    function: Function,
    ty: Ty,
    place: u32,
    symbol: Symbol,
) -> Result<Turn, HeaderFault>
    ensures { Answers (turns.param_type_turn function ty place symbol) result }
{
    match symbol {
        Symbol::Name(_) => Ok(Turn::Goes(Stage::ParamName(function, ty))),
        _ => behind_turn(function, ty, place, symbol),
    }
}

// ---- turns that depend on what is known

impl Known {
    /// Nothing is known before the first line.
    pub fn new(alloc: Global) -> Known
        ensures nothing { known_of result ≡ header.nothing }
        ensures counted { IsCounted result }
    {
        Known {
            words: Words::new(alloc),
            table: Table::new(alloc),
            text: 0,
        }
    }

    /// The type that a token is.
    fn type_in(&self, symbol: &Symbol) -> Option<Ty>
        ensures { result ≡ grammar.type_in self.now.words symbol.now }
    {
        match symbol {
            Symbol::Word(word) => word_type(*word),
            Symbol::Name(name) => {
                if self.words.has(name.bytes()) {
                    Some(Ty::Refused)
                } else {
                    None
                }
            }
            _ => None,
        }
    }

    /// A token where a line begins.
    fn start_turn(&self, place: u32, symbol: &Symbol) -> Result<Turn, HeaderFault>
        ensures { result ≡ turns.start_turn self.now.words place symbol.now }
    {
        match symbol {
            Symbol::Sign(Sign::Hash) => Ok(Turn::Goes(Stage::Hash)),
            Symbol::Word(Word::Const) => Ok(Turn::Goes(Stage::Const)),
            _ => self.type_turn(false, place, symbol),
        }
    }

    /// The type of a line.
    fn type_turn(&self, constant: bool, place: u32, symbol: &Symbol) -> Result<Turn, HeaderFault>
        ensures { result ≡ turns.typed (stage.Typed constant)
            (grammar.type_in self.now.words symbol.now) place }
    {
        match self.type_in(symbol) {
            Some(ty) => Ok(Turn::Goes(Stage::Typed(constant, ty))),
            None => misfit(place),
        }
    }

    /// The type of a parameter.
    fn param_start(
        &self,
        function: Function,
        place: u32,
        symbol: &Symbol,
    ) -> Result<Turn, HeaderFault>
        ensures { result ≡ turns.typed (stage.ParamType function)
            (grammar.type_in self.now.words symbol.now) place }
    {
        match self.type_in(symbol) {
            Some(ty) => Ok(Turn::Goes(Stage::ParamType(function, ty))),
            None => misfit(place),
        }
    }

    /// A token behind a function's `(`.
    fn params_turn(
        &self,
        function: Function,
        place: u32,
        symbol: &Symbol,
    ) -> Result<Turn, HeaderFault>
        ensures { result ≡ turns.params_turn self.now.words function place symbol.now }
    {
        match symbol {
            Symbol::Sign(Sign::Close) => Ok(Turn::Goes(Stage::Closed(function))),
            _ => self.param_start(function, place, symbol),
        }
    }

    /// Whether a function has this name. Most headers have their constants before all functions:
    /// there is nothing to look for then.
    #[tactic(auto, using(crate::proofs::NameLemmas::none_named))]
    fn is_routine(&self, name: &[u8]) -> bool
        ensures { result ≡ is_some (routine_named name.now self.now.table.routines) }
    {
        self.table.count() > 0 && self.table.by_name(name).is_some()
    }

    /// What is wrong with a function of this name.
    #[tactic(auto, unfolding(crate::specs::Headers::function_fault))]
    fn function_fault(&self, head: &Declared) -> Option<HeaderFault>
        ensures { result ≡ header.function_fault (known_of self.now) head.now }
    {
        if self.is_routine(head.name.bytes()) {
            Some(HeaderFault::Twice(head.place))
        } else if self.table.constant(head.name.bytes()).is_some() {
            Some(HeaderFault::Twice(head.place))
        } else if self.table.count() < MOST_FUNCTIONS {
            None
        } else {
            Some(HeaderFault::Many(head.place))
        }
    }

    /// What is wrong with a constant of this name, whatever its value.
    #[tactic(auto, unfolding(crate::specs::Headers::constant_fault))]
    fn constant_fault(&self, head: &Declared) -> Option<HeaderFault>
        ensures { result ≡ header.constant_fault (known_of self.now) head.now }
    {
        if self.is_routine(head.name.bytes()) {
            Some(HeaderFault::Twice(head.place))
        } else {
            None
        }
    }

    /// What is wrong with a constant of this name without a value.
    #[tactic(auto, unfolding(crate::specs::Headers::value_fault))]
    fn loose_fault(&self, head: &Declared) -> Option<HeaderFault>
        ensures { result ≡ header.value_fault (known_of self.now) head.now None }
    {
        if self.table.constant(head.name.bytes()).is_some() {
            Some(HeaderFault::Twice(head.place))
        } else {
            None
        }
    }

    /// Whether a constant of this name is new; else it has to be equal to the one that is there.
    #[tactic(auto, unfolding(crate::specs::Headers::value_fault))]
    fn is_new(&self, head: &Declared, value: &Const) -> Result<bool, HeaderFault>
        ensures new { IfOk result (λ new.
            new ≡ turns.is_new (known_of self.now) (Some value.now) (owner.Constant head.now)) }
        ensures clear { IfOk result
            (λ _. header.value_fault (known_of self.now) head.now (Some value.now) ≡ None) }
        ensures fault { IfErr result
            (λ f. header.value_fault (known_of self.now) head.now (Some value.now) ≡ Some f) }
    {
        match self.table.constant(head.name.bytes()) {
            None => Ok(true),
            Some(old) => {
                if same(old, value) {
                    Ok(false)
                } else {
                    Err(HeaderFault::Twice(head.place))
                }
            }
        }
    }

    /// A token behind a type and a name.
    fn named_turn(
        &self,
        alloc: Global,
        constant: bool,
        head: Declared,
        place: u32,
        symbol: Symbol,
    ) -> Result<Turn, HeaderFault>
        ensures { result ≡ turns.named_turn (known_of self.now) constant head place symbol }
    {
        match symbol {
            Symbol::Sign(Sign::Equals) => self.open_constant(head),
            Symbol::Sign(Sign::Open) => {
                if constant {
                    misfit(place)
                } else {
                    self.open_function(alloc, head)
                }
            }
            _ => misfit(place),
        }
    }

    fn open_constant(&self, head: Declared) -> Result<Turn, HeaderFault>
        ensures { result ≡ turns.unless_fault (header.constant_fault (known_of self.now) head)
            (turns.goes (stage.Value (owner.Constant head))) }
    {
        match self.constant_fault(&head) {
            Some(fault) => Err(fault),
            None => Ok(Turn::Goes(Stage::Value(Owner::Constant(head)))),
        }
    }

    fn open_function(&self, alloc: Global, head: Declared) -> Result<Turn, HeaderFault>
        ensures { result ≡ turns.unless_fault (header.function_fault (known_of self.now) head)
            (turns.goes (stage.Params (record { head = head; params = [] }))) }
    {
        match self.function_fault(&head) {
            Some(fault) => Err(fault),
            None => Ok(Turn::Goes(Stage::Params(Function {
                head,
                params: Params::new(alloc),
            }))),
        }
    }

    /// What is wrong with what a value that has no constant is for.
    fn owner_fault(&self, owner: &Owner) -> Option<HeaderFault>
        ensures { result ≡ turns.owner_fault (known_of self.now) owner.now None }
    {
        match owner {
            Owner::Constant(head) => self.loose_fault(head),
            Owner::Parameter(_, _) => None,
        }
    }

    /// A value was read. This is where a constant is looked up, once.
    fn got(&self, owner: Owner, value: Const) -> Result<Turn, HeaderFault>
        ensures { result ≡ turns.got (known_of self.now) owner (Some value) 0 }
    {
        let new = match &owner {
            Owner::Constant(head) => self.is_new(head, &value)?,
            Owner::Parameter(_, _) => false,
        };
        Ok(Turn::Goes(Stage::Valued(owner, Some(value), new)))
    }

    /// The constant of this type that a name stands for.
    fn named_constant(&self, alloc: Global, ty: Ty, name: &[u8]) -> Result<Option<Const>, NoMemory>
        ensures { IfOk result (λ value.
            value ≡ grammar.of_type ty (constant_named name.now self.now.table.constants)) }
    {
        match self.table.constant(name) {
            None => Ok(None),
            Some(constant) => {
                if has_type(constant, ty) {
                    Ok(Some(constant.copy(alloc)?))
                } else {
                    Ok(None)
                }
            }
        }
    }

    /// The constant of this type that a token is by itself.
    fn constant_in(&self, alloc: Global, ty: Ty, symbol: Symbol) -> Result<Option<Const>, NoMemory>
        ensures { IfOk result (λ value.
            value ≡ grammar.constant_in self.now.table.constants ty symbol) }
    {
        match symbol {
            Symbol::Name(name) => self.named_constant(alloc, ty, name.bytes()),
            Symbol::Int(number) => Ok(match ty {
                Ty::Int => Some(Const::Int(number.cast_signed())),
                _ => None,
            }),
            Symbol::Text(text) => Ok(match ty {
                Ty::Text => Some(Const::Text(text)),
                _ => None,
            }),
            Symbol::Word(word) => Ok(object_of(ty, word)),
            Symbol::Sign(_) | Symbol::Float => Ok(None),
        }
    }

    /// The first token of a value of a type that has constants.
    fn constant_turn(
        &self,
        alloc: Global,
        owner: Owner,
        ty: Ty,
        place: u32,
        symbol: Symbol,
    ) -> Result<Turn, HeaderFault>
        ensures { Answers (turns.constant_turn (known_of self.now) owner ty place symbol) result }
    {
        if is_minus_of_int(ty, &symbol) {
            return Ok(Turn::Goes(Stage::Minus(owner)));
        }
        match self.constant_in(alloc, ty, symbol)? {
            Some(value) => self.got(owner, value),
            None => misfit(place),
        }
    }

    /// A token behind the `-` of an int.
    fn minus_turn(&self, owner: Owner, place: u32, symbol: Symbol) -> Result<Turn, HeaderFault>
        ensures { result ≡ turns.minus_turn (known_of self.now) owner place symbol }
    {
        match symbol {
            Symbol::Int(number) => self.got(owner, negative(number)),
            _ => misfit(place),
        }
    }

    /// A token in a value of a type that has no constants.
    fn loose_turn(
        &self,
        owner: Owner,
        depth: u32,
        place: u32,
        symbol: Symbol,
    ) -> Result<Turn, HeaderFault>
        requires few { depth < 4294967295 }
        ensures { Answers (turns.loose_turn (known_of self.now) owner depth place symbol) result }
    {
        match brackets(depth, &symbol) {
            Some(inside) => Ok(Turn::Goes(Stage::Loose(owner, inside))),
            None => self.loose_end(owner, place, symbol),
        }
    }

    /// The token that ends such a value.
    fn loose_end(&self, owner: Owner, place: u32, symbol: Symbol) -> Result<Turn, HeaderFault>
        ensures { Answers (turns.checked (known_of self.now) owner None
            (turns.valued_turn owner None false place symbol)) result }
    {
        match self.owner_fault(&owner) {
            Some(fault) => Err(fault),
            None => valued_turn(owner, None, false, place, symbol),
        }
    }

    /// The first token of a value.
    fn value_turn(
        &self,
        alloc: Global,
        owner: Owner,
        place: u32,
        symbol: Symbol,
    ) -> Result<Turn, HeaderFault>
        ensures { Answers (turns.value_turn (known_of self.now) owner place symbol) result }
    {
        let ty = type_of(&owner);
        if has_constants(ty) {
            self.constant_turn(alloc, owner, ty, place, symbol)
        } else {
            self.loose_turn(owner, 0, place, symbol)
        }
    }

    /// What a token at this place does to a line that has come so far.
    #[tactic(auto, unfolding(crate::specs::Turns::turn))]
    pub fn turn(
        &self,
        alloc: Global,
        stage: Stage,
        place: u32,
        symbol: Symbol,
    ) -> Result<Turn, HeaderFault>
        requires few { depth_of stage < 4294967295 }
        ensures { Answers (turns.turn (known_of self.now) stage place symbol) result }
    {
        match stage {
            Stage::Start => self.start_turn(place, &symbol),
            Stage::Hash => hash_turn(place, symbol),
            Stage::Define => define_turn(place, symbol),
            Stage::Defined(name) => defined_turn(name.bytes(), place, symbol),
            Stage::Const => self.type_turn(true, place, &symbol),
            Stage::Typed(constant, ty) => typed_turn(constant, ty, place, symbol),
            Stage::Named(constant, head) => self.named_turn(alloc, constant, head, place, symbol),
            Stage::Value(owner) => self.value_turn(alloc, owner, place, symbol),
            Stage::Minus(owner) => self.minus_turn(owner, place, symbol),
            Stage::Loose(owner, depth) => self.loose_turn(owner, depth, place, symbol),
            Stage::Valued(owner, value, new) => valued_turn(owner, value, new, place, symbol),
            Stage::Params(function) => self.params_turn(function, place, &symbol),
            Stage::Param(function) => self.param_start(function, place, &symbol),
            Stage::ParamType(function, ty) => param_type_turn(function, ty, place, symbol),
            Stage::ParamName(function, ty) => behind_turn(function, ty, place, symbol),
            Stage::Closed(function) => closed_turn(function, place, symbol),
        }
    }

    /// Takes a function into the table.
    fn declare_function(&mut self, function: Function) -> Result<(), NoMemory>
        requires open { IsOpen (known_of self.old) function }
        requires few { length function.params ≤ parameter_limit }
        requires counted { IsCounted self.old }
        ensures declared { OnOk result (known_of self.new
            ≡ header.after (known_of self.old) (declaration.Function function)) }
        ensures counted { OnOk result (IsCounted self.new) }
    {
        hold_defaults(&mut self.text, function.params.as_slice())?;
        let Function { head, params } = function;
        let role = role_of(head.name.bytes(), head.ty, params.as_slice());
        self.table.push(Routine {
            name: head.name,
            result: head.ty,
            params,
            role,
        })
    }

    /// Takes a constant into the table, unless one of its name is there.
    fn define(&mut self, head: Declared, value: Const, new: bool) -> Result<(), NoMemory>
        requires value { IsConstant value }
        requires free { header.constant_fault (known_of self.old) head ≡ None }
        requires new { new
            ≡ turns.is_new (known_of self.old) (Some value) (owner.Constant head) }
        requires counted { IsCounted self.old }
        ensures declared { OnOk result (known_of self.new
            ≡ header.after (known_of self.old) (declaration.Constant head (Some value))) }
        ensures counted { OnOk result (IsCounted self.new) }
    {
        if !new {
            return Ok(());
        }
        hold(&mut self.text, text_bytes(&value))?;
        self.table.define(head.name, value)
    }

    /// Takes a constant into the table, where it has a value.
    fn declare_constant(
        &mut self,
        head: Declared,
        value: Option<Const>,
        new: bool,
    ) -> Result<(), NoMemory>
        requires value { IfSome value IsConstant }
        requires free { header.constant_fault (known_of self.old) head ≡ None }
        requires new { new ≡ turns.is_new (known_of self.old) value (owner.Constant head) }
        requires counted { IsCounted self.old }
        ensures declared { OnOk result (known_of self.new
            ≡ header.after (known_of self.old) (declaration.Constant head value)) }
        ensures counted { OnOk result (IsCounted self.new) }
    {
        match value {
            Some(value) => self.define(head, value, new),
            None => Ok(()),
        }
    }

    /// Takes in what a line declares. It fails where memory is refused, or the strings of the table
    /// pass the budget.
    pub fn declare(&mut self, declared: Declaration, new: bool) -> Result<(), NoMemory>
        requires keeps { KeepsDeclaration (known_of self.old) declared }
        requires new { turns.TellsNew (known_of self.old) declared new }
        requires counted { IsCounted self.old }
        ensures declared { OnOk result
            (known_of self.new ≡ header.after (known_of self.old) declared) }
        ensures counted { OnOk result (IsCounted self.new) }
    {
        match declared {
            Declaration::Passed => Ok(()),
            Declaration::TypeWord(name) => self.words.add(name),
            Declaration::Constant(head, value) => self.declare_constant(head, value, new),
            Declaration::Function(function) => self.declare_function(function),
        }
    }
}

/// The type of what a value is for.
fn type_of(owner: &Owner) -> Ty
    ensures { result ≡ turns.type_of owner.now }
{
    match owner {
        Owner::Constant(head) => head.ty,
        Owner::Parameter(_, ty) => *ty,
    }
}

/// The object that a word stands for.
fn object_of(ty: Ty, word: Word) -> Option<Const>
    ensures { (constants : _) → result ≡ grammar.constant_in constants ty (symbol.Word word) }
{
    match ty {
        Ty::Object => match word {
            Word::ObjectSelf => Some(Const::SelfObject),
            Word::ObjectInvalid => Some(Const::InvalidObject),
            _ => None,
        },
        _ => None,
    }
}

/// Whether this is the sign before an int.
fn is_minus_of_int(ty: Ty, symbol: &Symbol) -> bool
    ensures { result ≡ turns.is_minus_of_int ty symbol.now }
{
    match ty {
        Ty::Int => match symbol {
            Symbol::Sign(Sign::Minus) => true,
            _ => false,
        },
        _ => false,
    }
}
