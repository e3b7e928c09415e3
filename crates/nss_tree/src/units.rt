ghost use Rattle.std.specs.Prelude.{◌≡◌};
ghost use Rattle.std.specs.Option.{option_map};
ghost use Rattle.nss_tree.specs.Units as tree;
ghost use Rattle.nss_tree.specs.Reading.{tree_of_item, tree_of_stmts};

use crate::constants::{Constant, TypeName};
use crate::expressions::Expr;
use crate::statements::{DeclaredName, Stmt};
use nwq_value::{Items, Text};

/// A name that is declared with no value of its own: that of a const line or of a field. The token
/// is the name.
#[derive(Drop)]
pub struct Identifier {
    pub token: u32,
    pub name: Text,
}

/// A line of a struct: fields of one type. The token is the first of the type.
#[derive(Drop)]
pub struct FieldLine<T = TypeName> {
    pub token: u32,
    pub ty: T,
    pub names: Items<Identifier>,
}

/// A parameter of a function. The token is the first of the type.
#[derive(Drop)]
pub struct Parameter<C = Constant, T = TypeName, N = Text> {
    pub token: u32,
    pub ty: T,
    pub name: N,
    pub default: Option<C>,
}

/// What a unit consists of.
///
/// The token of a struct or a function is its name, of a const line or a global's line the first of
/// its type.
#[derive(Drop)]
pub enum Item<E = Expr, C = Constant, T = TypeName, N = Text> {
    Struct {
        token: u32,
        name: Text,
        fields: Items<FieldLine<T>>,
    },
    Const {
        token: u32,
        ty: T,
        name: Identifier,
        value: C,
    },
    Global {
        token: u32,
        ty: T,
        names: Items<DeclaredName<E, N>>,
    },
    /// A function, or with no body a prototype
    Function {
        token: u32,
        result: T,
        name: Text,
        parameters: Items<Parameter<C, T, N>>,
        body: Option<Items<Stmt<E, C, T, N>>>,
    },
}

impl<E: Drop, C: Drop, T: Drop, N: Drop> Item<E, C, T, N> {
    pub fn structure(token: u32, name: Text, fields: Items<FieldLine<T>>) -> Item<E, C, T, N>
        ensures made { tree_of_item result ≡ tree.structure token name fields }
    {
        Item::Struct {
            token,
            name,
            fields,
        }
    }

    pub fn constant(token: u32, ty: T, name: Identifier, value: C) -> Item<E, C, T, N>
        ensures made { tree_of_item result ≡ tree.constant token ty name value }
    {
        Item::Const {
            token,
            ty,
            name,
            value,
        }
    }

    pub fn global(token: u32, ty: T, names: Items<DeclaredName<E, N>>) -> Item<E, C, T, N>
        ensures made { tree_of_item result ≡ tree.global token ty names }
    {
        Item::Global { token, ty, names }
    }

    pub fn function(
        token: u32,
        ty: T,
        name: Text,
        parameters: Items<Parameter<C, T, N>>,
        body: Option<Items<Stmt<E, C, T, N>>>,
    ) -> Item<E, C, T, N>
        ensures made { tree_of_item result ≡ tree.function token ty name parameters
            (option_map tree_of_stmts body) }
    {
        Item::Function {
            token,
            result: ty,
            name,
            parameters,
            body,
        }
    }
}

/// The syntax tree of a unit: its items, and how many tokens it has.
#[derive(Drop)]
pub struct Tree<E = Expr, C = Constant, T = TypeName, N = Text> {
    pub items: Items<Item<E, C, T, N>>,
    pub count: u32,
}
