ghost use Rattle.std.specs.Prelude.{◌≡◌, ◌↔◌, [], IsTrue, IsSome, IfOk, Some};
ghost use Rattle.nwq_value.specs.Values.{type_of, no_routine, start_value};

use crate::items::Items;
use crate::memory::NoMemory;
use crate::text::Text;
use std::alloc::Global;
use std::marker::Model;
use std::rc::Rc;

/// A type of the language. `Struct` carries the number of a struct of the unit. `Refused` stands
/// for every type whose values are left out: float, vector, location, talent and their kin.
#[derive(Clone, Copy, Debug, PartialEq, Eq)]
pub enum Ty {
    Void,
    Int,
    Text,
    Object,
    Effect,
    Event,
    Action,
    Struct(u16),
    Refused,
}

pub type Ints = Items<i32>;

pub type Randoms = Items<u32>;

pub type Args = Items<Value>;

pub type Tys = Items<Ty>;

/// What copies of an effect share.
#[derive(Drop)]
struct Made {
    routine: u16,
    ints: Ints,
}

/// An effect: the number of the routine that made it, and that routine's integer arguments in
/// order.
///
/// Copies share both, so a copy takes no memory.
#[derive(Drop)]
pub struct Effect {
    made: Rc<Made>,
}

impl Model for Effect {
    ghost use Rattle.nwq_value.specs.Effect.{Effect};

    ghost Value = { Effect };

    ghost view = { λ e. record { routine = e.made.value.routine; ints = e.made.value.ints } };
}

/// A value of one cell. Object 0 is the invalid object; an event is its user number.
#[derive(Drop)]
pub enum Value {
    Int(i32),
    Text(Text),
    Object(u32),
    Effect(Effect),
    Event(i32),
}

/// The routine number of the empty effect, which no table reaches.
pub const NO_ROUTINE: u16 = 65535;

impl Effect {
    /// The effect of a routine's number and its integer arguments.
    pub fn new(alloc: Global, routine: u16, ints: Ints) -> Result<Effect, NoMemory>
        ensures made { IfOk result
            (λ effect. effect ≡ record { routine = routine; ints = ints }) }
    {
        Ok(Effect {
            made: Rc::new(alloc, Made { routine, ints })?,
        })
    }

    /// The empty effect, which no routine made.
    pub fn empty(alloc: Global) -> Result<Effect, NoMemory>
        ensures empty { IfOk result
            (λ effect. effect ≡ record { routine = no_routine; ints = [] }) }
    {
        Effect::new(alloc, NO_ROUTINE, Ints::new(alloc))
    }

    /// The number of the routine that made it.
    pub fn routine(&self) -> u16
        ensures routine { result ≡ self.now.routine }
    {
        self.made.routine
    }

    /// The integer arguments, in order.
    pub fn ints(&self) -> &[i32]
        ensures ints { result.now ≡ self.now.ints }
    {
        self.made.ints.as_slice()
    }

    /// An equal effect, which shares routine and integers.
    pub fn copy(&self, _alloc: Global) -> Result<Effect, NoMemory>
        ensures ok { IfOk result (λ effect. effect ≡ self.now) }
    {
        Ok(Effect {
            made: self.made.clone()?,
        })
    }

    /// Whether routine and integers are equal.
    pub fn same(&self, other: &Effect) -> bool
        ensures equal { IsTrue result ↔ (self.now ≡ other.now) }
    {
        self.routine() == other.routine() && self.ints() == other.ints()
    }
}

impl Value {
    /// An equal value.
    pub fn copy(&self, alloc: Global) -> Result<Value, NoMemory>
        ensures ok { IfOk result (λ value. value ≡ self.now) }
    {
        match self {
            Value::Int(n) => Ok(Value::Int(*n)),
            Value::Text(text) => Ok(Value::Text(text.copy(alloc)?)),
            Value::Object(object) => Ok(Value::Object(*object)),
            Value::Effect(effect) => Ok(Value::Effect(effect.copy(alloc)?)),
            Value::Event(n) => Ok(Value::Event(*n)),
        }
    }

    /// Whether type and content are equal.
    pub fn same(&self, other: &Value) -> bool
        ensures equal { IsTrue result ↔ (self.now ≡ other.now) }
    {
        match (self, other) {
            (Value::Int(a), Value::Int(b)) => *a == *b,
            (Value::Text(a), Value::Text(b)) => a.bytes() == b.bytes(),
            (Value::Object(a), Value::Object(b)) => *a == *b,
            (Value::Effect(a), Value::Effect(b)) => a.same(b),
            (Value::Event(a), Value::Event(b)) => *a == *b,
            _ => false,
        }
    }

    pub fn ty(&self) -> Ty
        ensures ty { result ≡ type_of self.now }
    {
        match self {
            Value::Int(_) => Ty::Int,
            Value::Text(_) => Ty::Text,
            Value::Object(_) => Ty::Object,
            Value::Effect(_) => Ty::Effect,
            Value::Event(_) => Ty::Event,
        }
    }
}

/// The starting value of a type that has one: 0, the empty text, the invalid object, the empty
/// effect, the event of number 0.
pub fn start_of(alloc: Global, ty: Ty) -> Result<Value, NoMemory>
    requires starts { IsSome (start_value ty) }
    ensures value { IfOk result (λ value. start_value ty ≡ Some value) }
{
    match ty {
        Ty::Int => Ok(Value::Int(0)),
        Ty::Text => Ok(Value::Text(Text::empty(alloc)?)),
        Ty::Object => Ok(Value::Object(0)),
        Ty::Effect => Ok(Value::Effect(Effect::empty(alloc)?)),
        Ty::Event => Ok(Value::Event(0)),
        _ => unreachable!(),
    }
}
