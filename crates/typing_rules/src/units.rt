ghost use Rattle.std.specs.Prelude.{◌≡◌};
ghost use Rattle.typing_rules.specs.UnitReading.{typed_items, typed_unit};

use crate::expressions::Expression;
use crate::places::{EntryPoint, Variable};
use nss_tree::{DeclaredName, FieldLine, Item, Parameter, Stmt};
use nwq_value::{Const, Items, Ty};

/// A declared name of a typed unit, with its typed first value.
pub type TypedName = DeclaredName<Expression, Variable>;

/// A statement, a declaration or a label of a typed unit.
pub type TypedStmt = Stmt<Expression, Const, Ty, Variable>;

/// A line of fields of a typed unit.
pub type TypedLine = FieldLine<Ty>;

/// A parameter of a typed unit.
pub type TypedParameter = Parameter<Const, Ty, Variable>;

/// An item of a typed unit.
pub type TypedItem = Item<Expression, Const, Ty, Variable>;

/// A typed unit: its items, and the function that a script begins with.
#[derive(Drop)]
pub struct Typed {
    pub items: Items<TypedItem>,
    pub entry: EntryPoint,
}

impl Typed {
    /// The unit of these items, which begins so.
    pub fn new(items: Items<TypedItem>, entry: EntryPoint) -> Typed
        ensures made { typed_unit result ≡ record { items = typed_items items; entry = entry } }
    {
        Typed { items, entry }
    }
}
