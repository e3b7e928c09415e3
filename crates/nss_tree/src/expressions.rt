ghost use Rattle.std.specs.Prelude.{◌≡◌, IfOk};
ghost use Rattle.std.specs.Int.{cast_signed, w32};
ghost use Rattle.nss_tree.specs.Expressions as tree;
ghost use Rattle.nss_tree.specs.Reading.{plain_expr, plain_exprs};

use crate::operators::{AssignOperator, BinaryOperator, PostfixOperator, PrefixOperator};
use nwq_value::{Items, NoMemory, Text};
use std::alloc::Global;

/// An expression.
///
/// The token of an operation is its operator, of a call its name, of a member its `.`, of a literal
/// or a name itself.
#[derive(Drop)]
pub enum Expr {
    Int {
        token: u32,
        value: i32,
    },
    Float {
        token: u32,
    },
    Text {
        token: u32,
        value: Text,
    },
    ObjectSelf {
        token: u32,
    },
    ObjectInvalid {
        token: u32,
    },
    Name {
        token: u32,
        name: Text,
    },
    Call {
        token: u32,
        name: Text,
        arguments: Vec<Expr>,
    },
    Member {
        token: u32,
        of: Box<Expr>,
        name: Text,
    },
    Prefix {
        token: u32,
        operator: PrefixOperator,
        of: Box<Expr>,
    },
    Postfix {
        token: u32,
        operator: PostfixOperator,
        of: Box<Expr>,
    },
    Binary {
        token: u32,
        operator: BinaryOperator,
        left: Box<Expr>,
        right: Box<Expr>,
    },
    Assign {
        token: u32,
        operator: AssignOperator,
        place: Box<Expr>,
        value: Box<Expr>,
    },
}

#[tactic(auto, using(crate::specs::Readings::plain_laws))]
impl Expr {
    /// An int literal, whose number is taken as a signed one of 32 bits.
    pub fn int(token: u32, value: u32) -> Expr
        ensures made { plain_expr result ≡ tree.int token (cast_signed w32 value) }
    {
        Expr::Int {
            token,
            value: value.cast_signed(),
        }
    }

    pub fn float(token: u32) -> Expr
        ensures made { plain_expr result ≡ tree.float token }
    {
        Expr::Float { token }
    }

    pub fn text(token: u32, value: Text) -> Expr
        ensures made { plain_expr result ≡ tree.text token value }
    {
        Expr::Text { token, value }
    }

    pub fn object_self(token: u32) -> Expr
        ensures made { plain_expr result ≡ tree.object_self token }
    {
        Expr::ObjectSelf { token }
    }

    pub fn object_invalid(token: u32) -> Expr
        ensures made { plain_expr result ≡ tree.object_invalid token }
    {
        Expr::ObjectInvalid { token }
    }

    pub fn name(token: u32, name: Text) -> Expr
        ensures made { plain_expr result ≡ tree.name token name }
    {
        Expr::Name { token, name }
    }

    pub fn call(token: u32, name: Text, arguments: Items<Expr>) -> Expr
        ensures made { plain_expr result ≡ tree.call token name (plain_exprs arguments) }
    {
        Expr::Call {
            token,
            name,
            arguments: arguments.into_vec(),
        }
    }

    pub fn member(alloc: Global, token: u32, of: Expr, name: Text) -> Result<Expr, NoMemory>
        ensures made { IfOk result (λ e. plain_expr e ≡ tree.member token (plain_expr of) name) }
    {
        Ok(Expr::Member {
            token,
            of: Box::new(alloc, of)?,
            name,
        })
    }

    pub fn prefix(
        alloc: Global,
        token: u32,
        operator: PrefixOperator,
        of: Expr,
    ) -> Result<Expr, NoMemory>
        ensures made { IfOk result (λ e. plain_expr e
            ≡ tree.prefix token operator (plain_expr of)) }
    {
        Ok(Expr::Prefix {
            token,
            operator,
            of: Box::new(alloc, of)?,
        })
    }

    pub fn postfix(
        alloc: Global,
        token: u32,
        operator: PostfixOperator,
        of: Expr,
    ) -> Result<Expr, NoMemory>
        ensures made { IfOk result
            (λ e. plain_expr e ≡ tree.postfix token operator (plain_expr of)) }
    {
        Ok(Expr::Postfix {
            token,
            operator,
            of: Box::new(alloc, of)?,
        })
    }

    pub fn binary(
        alloc: Global,
        token: u32,
        operator: BinaryOperator,
        left: Expr,
        right: Expr,
    ) -> Result<Expr, NoMemory>
        ensures made { IfOk result
            (λ e. plain_expr e ≡ tree.binary token operator (plain_expr left) (plain_expr right)) }
    {
        Ok(Expr::Binary {
            token,
            operator,
            left: Box::new(alloc, left)?,
            right: Box::new(alloc, right)?,
        })
    }

    pub fn assign(
        alloc: Global,
        token: u32,
        operator: AssignOperator,
        place: Expr,
        value: Expr,
    ) -> Result<Expr, NoMemory>
        ensures made { IfOk result
            (λ e. plain_expr e ≡ tree.assign token operator (plain_expr place) (plain_expr value)) }
    {
        Ok(Expr::Assign {
            token,
            operator,
            place: Box::new(alloc, place)?,
            value: Box::new(alloc, value)?,
        })
    }
}
