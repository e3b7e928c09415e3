ghost use Rattle.std.specs.Prelude.{◌≡◌};
ghost use Rattle.std.specs.Option.{option_map};
ghost use Rattle.nss_parser.specs.Operators as table;
ghost use Rattle.nss_parser.specs.ReadExpression as read;
ghost use Rattle.nss_symbols.specs.Cursor.{plain_symbol};

use nss_symbols::{Seen, Terminal};
use nss_tree::{AssignOperator, BinaryOperator, PostfixOperator, PrefixOperator};

/// What may go on an expression after it: a `.` with a name, or an operator.
#[derive(Clone, Copy)]
pub enum Suffix {
    Member,
    Step(PostfixOperator),
}

/// The operator between two operands that a terminal is.
fn binary_operator(terminal: Terminal) -> Option<BinaryOperator>
    ensures { result ≡ table.binary_operator terminal }
{
    match terminal {
        Terminal::OrOr => Some(BinaryOperator::Or),
        Terminal::AndAnd => Some(BinaryOperator::And),
        Terminal::Or => Some(BinaryOperator::BitOr),
        Terminal::Xor => Some(BinaryOperator::BitXor),
        Terminal::And => Some(BinaryOperator::BitAnd),
        Terminal::Equal => Some(BinaryOperator::Equal),
        Terminal::NotEqual => Some(BinaryOperator::NotEqual),
        Terminal::GreaterEqual => Some(BinaryOperator::GreaterOrEqual),
        Terminal::Greater => Some(BinaryOperator::Greater),
        Terminal::Less => Some(BinaryOperator::Less),
        Terminal::LessEqual => Some(BinaryOperator::LessOrEqual),
        Terminal::ShiftLeft => Some(BinaryOperator::ShiftLeft),
        Terminal::ShiftRight => Some(BinaryOperator::ShiftRight),
        Terminal::ShiftRightUnsigned => Some(BinaryOperator::UnsignedShiftRight),
        Terminal::Plus => Some(BinaryOperator::Add),
        Terminal::Minus => Some(BinaryOperator::Subtract),
        Terminal::Star => Some(BinaryOperator::Multiply),
        Terminal::Slash => Some(BinaryOperator::Divide),
        Terminal::Percent => Some(BinaryOperator::Remainder),
        _ => None,
    }
}

/// How tight an operator binds.
pub fn level_of(operator: BinaryOperator) -> u32
    ensures { result ≡ table.level_of operator }
{
    match operator {
        BinaryOperator::Or => 1,
        BinaryOperator::And => 2,
        BinaryOperator::BitOr => 3,
        BinaryOperator::BitXor => 4,
        BinaryOperator::BitAnd => 5,
        BinaryOperator::Equal | BinaryOperator::NotEqual => 6,
        BinaryOperator::GreaterOrEqual
        | BinaryOperator::Greater
        | BinaryOperator::Less
        | BinaryOperator::LessOrEqual => 7,
        BinaryOperator::ShiftLeft
        | BinaryOperator::ShiftRight
        | BinaryOperator::UnsignedShiftRight => 8,
        BinaryOperator::Add | BinaryOperator::Subtract => 9,
        BinaryOperator::Multiply | BinaryOperator::Divide | BinaryOperator::Remainder => 10,
    }
}

/// The operator that writes its left operand that a terminal is.
fn assign_operator(terminal: Terminal) -> Option<AssignOperator>
    ensures { result ≡ table.assign_operator terminal }
{
    match terminal {
        Terminal::Assign => Some(AssignOperator::Set),
        Terminal::PlusAssign => Some(AssignOperator::Add),
        Terminal::MinusAssign => Some(AssignOperator::Subtract),
        Terminal::StarAssign => Some(AssignOperator::Multiply),
        Terminal::SlashAssign => Some(AssignOperator::Divide),
        Terminal::PercentAssign => Some(AssignOperator::Remainder),
        Terminal::AndAssign => Some(AssignOperator::BitAnd),
        Terminal::OrAssign => Some(AssignOperator::BitOr),
        Terminal::XorAssign => Some(AssignOperator::BitXor),
        Terminal::ShiftLeftAssign => Some(AssignOperator::ShiftLeft),
        Terminal::ShiftRightAssign => Some(AssignOperator::ShiftRight),
        Terminal::ShiftRightUnsignedAssign => Some(AssignOperator::UnsignedShiftRight),
        _ => None,
    }
}

/// The operator before its operand that a terminal is.
fn prefix_operator(terminal: Terminal) -> Option<PrefixOperator>
    ensures { result ≡ table.prefix_operator terminal }
{
    match terminal {
        Terminal::Minus => Some(PrefixOperator::Minus),
        Terminal::Tilde => Some(PrefixOperator::Complement),
        Terminal::Not => Some(PrefixOperator::Not),
        Terminal::PlusPlus => Some(PrefixOperator::Increment),
        Terminal::MinusMinus => Some(PrefixOperator::Decrement),
        _ => None,
    }
}

/// The operator after its operand that a terminal is.
fn postfix_operator(terminal: Terminal) -> Option<PostfixOperator>
    ensures { result ≡ table.postfix_operator terminal }
{
    match terminal {
        Terminal::PlusPlus => Some(PostfixOperator::Increment),
        Terminal::MinusMinus => Some(PostfixOperator::Decrement),
        _ => None,
    }
}

/// The operator between two operands that comes next.
pub fn binary_of(next: Option<Seen<'_>>) -> Option<BinaryOperator>
    ensures { result ≡ read.binary_of (option_map plain_symbol next.entry) }
{
    match next {
        Some(Seen::Fixed(terminal)) => binary_operator(terminal),
        _ => None,
    }
}

/// The operator that writes its left operand that comes next.
pub fn assign_of(next: Option<Seen<'_>>) -> Option<AssignOperator>
    ensures { result ≡ read.assign_of (option_map plain_symbol next.entry) }
{
    match next {
        Some(Seen::Fixed(terminal)) => assign_operator(terminal),
        _ => None,
    }
}

/// The operator before its operand that comes next.
pub fn prefix_of(next: Option<Seen<'_>>) -> Option<PrefixOperator>
    ensures { result ≡ read.prefix_of (option_map plain_symbol next.entry) }
{
    match next {
        Some(Seen::Fixed(terminal)) => prefix_operator(terminal),
        _ => None,
    }
}

/// What comes next that goes on an expression.
pub fn suffix_of(next: Option<Seen<'_>>) -> Option<Suffix>
    ensures { result ≡ read.suffix_of (option_map plain_symbol next.entry) }
{
    match next {
        Some(Seen::Fixed(Terminal::Dot)) => Some(Suffix::Member),
        Some(Seen::Fixed(terminal)) => match postfix_operator(terminal) {
            Some(operator) => Some(Suffix::Step(operator)),
            None => None,
        },
        _ => None,
    }
}
