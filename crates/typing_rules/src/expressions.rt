ghost use Rattle.std.specs.Prelude.{◌≡◌, IfOk};
ghost use Rattle.typing_rules.specs.Typed as typed;
ghost use Rattle.typing_rules.specs.Reading.{plain, plain_all};

use crate::places::{Callee, Place};
use nss_tree::{AssignOperator, BinaryOperator, PostfixOperator, PrefixOperator};
use nwq_value::{Const, Items, NoMemory, Ty};
use std::alloc::Global;

/// A typed expression.
///
/// `filled` of a call are the defaults of the parameters behind the arguments, and `before` of a
/// member how many cells of its struct stand before it.
#[derive(Drop)]
pub enum Expression {
    Literal {
        value: Const,
    },
    Name {
        ty: Ty,
        place: Place,
    },
    Call {
        ty: Ty,
        callee: Callee,
        arguments: Vec<Expression>,
        filled: Items<Const>,
    },
    Member {
        ty: Ty,
        of: Box<Expression>,
        before: u32,
    },
    Prefix {
        ty: Ty,
        operator: PrefixOperator,
        of: Box<Expression>,
    },
    Postfix {
        ty: Ty,
        operator: PostfixOperator,
        of: Box<Expression>,
    },
    Binary {
        ty: Ty,
        operator: BinaryOperator,
        left: Box<Expression>,
        right: Box<Expression>,
    },
    Assign {
        ty: Ty,
        operator: AssignOperator,
        place: Box<Expression>,
        value: Box<Expression>,
    },
}

#[tactic(auto, using(crate::specs::Readings::made))]
impl Expression {
    pub fn literal(value: Const) -> Expression
        ensures made { plain result ≡ typed.literal value }
    {
        Expression::Literal { value }
    }

    pub fn name(ty: Ty, place: Place) -> Expression
        ensures made { plain result ≡ typed.name ty place }
    {
        Expression::Name { ty, place }
    }

    pub fn call(
        ty: Ty,
        callee: Callee,
        arguments: Items<Expression>,
        filled: Items<Const>,
    ) -> Expression
        ensures made { plain result ≡ typed.call ty callee (plain_all arguments) filled }
    {
        Expression::Call {
            ty,
            callee,
            arguments: arguments.into_vec(),
            filled,
        }
    }

    pub fn member(
        alloc: Global,
        ty: Ty,
        of: Expression,
        before: u32,
    ) -> Result<Expression, NoMemory>
        ensures made { IfOk result (λ e. plain e ≡ typed.member ty (plain of) before) }
    {
        Ok(Expression::Member {
            ty,
            of: Box::new(alloc, of)?,
            before,
        })
    }

    pub fn prefix(
        alloc: Global,
        ty: Ty,
        operator: PrefixOperator,
        of: Expression,
    ) -> Result<Expression, NoMemory>
        ensures made { IfOk result (λ e. plain e ≡ typed.prefix ty operator (plain of)) }
    {
        Ok(Expression::Prefix {
            ty,
            operator,
            of: Box::new(alloc, of)?,
        })
    }

    pub fn postfix(
        alloc: Global,
        ty: Ty,
        operator: PostfixOperator,
        of: Expression,
    ) -> Result<Expression, NoMemory>
        ensures made { IfOk result (λ e. plain e ≡ typed.postfix ty operator (plain of)) }
    {
        Ok(Expression::Postfix {
            ty,
            operator,
            of: Box::new(alloc, of)?,
        })
    }

    pub fn binary(
        alloc: Global,
        ty: Ty,
        operator: BinaryOperator,
        left: Expression,
        right: Expression,
    ) -> Result<Expression, NoMemory>
        ensures made { IfOk result
            (λ e. plain e ≡ typed.binary ty operator (plain left) (plain right)) }
    {
        Ok(Expression::Binary {
            ty,
            operator,
            left: Box::new(alloc, left)?,
            right: Box::new(alloc, right)?,
        })
    }

    pub fn assign(
        alloc: Global,
        ty: Ty,
        operator: AssignOperator,
        place: Expression,
        value: Expression,
    ) -> Result<Expression, NoMemory>
        ensures made { IfOk result
            (λ e. plain e ≡ typed.assign ty operator (plain place) (plain value)) }
    {
        Ok(Expression::Assign {
            ty,
            operator,
            place: Box::new(alloc, place)?,
            value: Box::new(alloc, value)?,
        })
    }
}

#[tactic(auto, using(crate::specs::Readings::known))]
impl Expression {
    /// The type of its value.
    pub fn ty(&self) -> Ty
        ensures ty { result ≡ typed.type_of (plain self.now) }
    {
        match self {
            Expression::Literal { value } => value.ty(),
            Expression::Name { ty, .. } => *ty,
            Expression::Call { ty, .. } => *ty,
            Expression::Member { ty, .. } => *ty,
            Expression::Prefix { ty, .. } => *ty,
            Expression::Postfix { ty, .. } => *ty,
            Expression::Binary { ty, .. } => *ty,
            Expression::Assign { ty, .. } => *ty,
        }
    }

    /// Whether it can be written: a variable, or a member of what can be written.
    pub fn is_place(&self) -> bool
        ensures place { result ≡ typed.is_place (plain self.now) }
    {
        match self {
            Expression::Literal { .. } => false,
            Expression::Name { place, .. } => place.is_variable(),
            Expression::Call { .. } => false,
            Expression::Member { of, .. } => of.is_place(),
            Expression::Prefix { .. } => false,
            Expression::Postfix { .. } => false,
            Expression::Binary { .. } => false,
            Expression::Assign { .. } => false,
        }
    }
}
