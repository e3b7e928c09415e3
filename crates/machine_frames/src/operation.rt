ghost use Rattle.std.specs.Prelude.{◌≡◌, ◌&&◌, false};
ghost use Rattle.nwq_value.specs.Operators.{as_int, is_zero};
ghost use Rattle.machine_frames.specs.Operations.{binary_of, divides, unary_of};

/// An operation of two ints. The second one was on top.
#[derive(Clone, Copy)]
pub enum Binary {
    LogAnd,
    LogOr,
    IncOr,
    ExcOr,
    BoolAnd,
    Geq,
    Gt,
    Lt,
    Leq,
    Same,
    Differs,
    ShLeft,
    ShRight,
    UshRight,
    Add,
    Sub,
    Mul,
    Div,
    Mod,
}

/// An operation of one int.
#[derive(Clone, Copy)]
pub enum Unary {
    Neg,
    Comp,
    Not,
    Inc,
    Dec,
}

/// A test's answer as an int.
#[inline(always)]
pub fn as_int(test: bool) -> i32
    ensures { result ≡ as_int test }
{
    if test { 1 } else { 0 }
}

/// What the operation gives. A division has no value where the divisor is 0.
#[inline(always)]
pub fn of_two(op: Binary, x: i32, y: i32) -> i32
    requires divisor { (divides op && is_zero y) ≡ false }
    ensures value { result ≡ binary_of op x y }
{
    match op {
        Binary::LogAnd => as_int(x != 0 && y != 0),
        Binary::LogOr => as_int(x != 0 || y != 0),
        Binary::IncOr => x | y,
        Binary::ExcOr => x ^ y,
        Binary::BoolAnd => x & y,
        Binary::Geq => as_int(x >= y),
        Binary::Gt => as_int(x > y),
        Binary::Lt => as_int(x < y),
        Binary::Leq => as_int(x <= y),
        Binary::Same => as_int(y == x),
        Binary::Differs => as_int(y != x),
        Binary::ShLeft => x.wrapping_shl(y.cast_unsigned()),
        Binary::ShRight => x.wrapping_shr(y.cast_unsigned()),
        Binary::UshRight => (x.cast_unsigned().wrapping_shr(y.cast_unsigned())).cast_signed(),
        Binary::Add => x.wrapping_add(y),
        Binary::Sub => x.wrapping_sub(y),
        Binary::Mul => x.wrapping_mul(y),
        Binary::Div => x.wrapping_div(y),
        Binary::Mod => x.wrapping_rem(y),
    }
}

/// What the operation gives.
#[inline(always)]
pub fn of_one(op: Unary, x: i32) -> i32
    ensures value { result ≡ unary_of op x }
{
    match op {
        Unary::Neg => x.wrapping_neg(),
        Unary::Comp => !x,
        Unary::Not => as_int(x == 0),
        Unary::Inc => x.wrapping_add(1),
        Unary::Dec => x.wrapping_sub(1),
    }
}
