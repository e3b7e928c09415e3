ghost use Rattle.std.specs.Prelude.{◌≡◌, IfOk};
ghost use Rattle.nwq_value.specs.Engine.{const_type};

use crate::items::Items;
use crate::memory::NoMemory;
use crate::text::Text;
use crate::value::Ty;
use std::alloc::Global;

/// A constant of a header: the default of a parameter, or what a name stands for.
#[derive(Drop)]
pub enum Const {
    Int(i32),
    Text(Text),
    SelfObject,
    InvalidObject,
}

impl Const {
    /// The type of its value.
    pub fn ty(&self) -> Ty
        ensures ty { result ≡ const_type self.now }
    {
        match self {
            Const::Int(_) => Ty::Int,
            Const::Text(_) => Ty::Text,
            Const::SelfObject | Const::InvalidObject => Ty::Object,
        }
    }

    /// An equal constant.
    pub fn copy(&self, alloc: Global) -> Result<Const, NoMemory>
        ensures ok { IfOk result (λ constant. constant ≡ self.now) }
    {
        match self {
            Const::Int(n) => Ok(Const::Int(*n)),
            Const::Text(text) => Ok(Const::Text(text.copy(alloc)?)),
            Const::SelfObject => Ok(Const::SelfObject),
            Const::InvalidObject => Ok(Const::InvalidObject),
        }
    }
}

/// A parameter of a routine.
#[derive(Drop)]
pub struct Param {
    pub ty: Ty,
    pub default: Option<Const>,
}

pub type Params = Items<Param>;

/// How calls of a routine are carried out. `Built` carries the number of the engine's own routine
/// in the built-in header, `Pure` the number of the hook that answers. A world function leaves its
/// call in the trace; an uncallable routine has a number and nothing else.
#[derive(Clone, Copy, Debug, PartialEq, Eq)]
pub enum Role {
    Built(u16),
    Pure(u8),
    World,
    Uncallable,
}

/// A routine of a header, under its number in the table.
#[derive(Drop)]
pub struct Routine {
    pub name: Text,
    pub result: Ty,
    pub params: Params,
    pub role: Role,
}
