ghost use Rattle.std.specs.Prelude.{◌≡◌};
ghost use Rattle.nss_symbols.specs.Terminals as table;

/// A word, operator or sign of the language, each of one fixed spelling.
#[derive(Clone, Copy, PartialEq, Eq)]
pub enum Terminal {
    /// `void`
    Void,
    /// `int`
    Int,
    /// `float`
    Float,
    /// `string`
    String,
    /// `object`
    Object,
    /// `vector`
    Vector,
    /// `location`
    Location,
    /// `effect`
    Effect,
    /// `event`
    Event,
    /// `talent`
    Talent,
    /// `itemproperty`
    ItemProperty,
    /// `action`
    Action,
    /// `struct`
    Struct,
    /// `const`
    Const,
    /// `if`
    If,
    /// `else`
    Else,
    /// `while`
    While,
    /// `do`
    Do,
    /// `for`
    For,
    /// `switch`
    Switch,
    /// `case`
    Case,
    /// `default`
    Default,
    /// `break`
    Break,
    /// `continue`
    Continue,
    /// `return`
    Return,
    /// `OBJECT_SELF`
    ObjectSelf,
    /// `OBJECT_INVALID`
    ObjectInvalid,
    /// `||`
    OrOr,
    /// `&&`
    AndAnd,
    /// `|`
    Or,
    /// `^`
    Xor,
    /// `&`
    And,
    /// `==`
    Equal,
    /// `!=`
    NotEqual,
    /// `>=`
    GreaterEqual,
    /// `>`
    Greater,
    /// `<`
    Less,
    /// `<=`
    LessEqual,
    /// `<<`
    ShiftLeft,
    /// `>>`
    ShiftRight,
    /// `>>>`
    ShiftRightUnsigned,
    /// `+`
    Plus,
    /// `-`
    Minus,
    /// `*`
    Star,
    /// `/`
    Slash,
    /// `%`
    Percent,
    /// `!`
    Not,
    /// `~`
    Tilde,
    /// `++`
    PlusPlus,
    /// `--`
    MinusMinus,
    /// `.`
    Dot,
    /// `=`
    Assign,
    /// `+=`
    PlusAssign,
    /// `-=`
    MinusAssign,
    /// `*=`
    StarAssign,
    /// `/=`
    SlashAssign,
    /// `%=`
    PercentAssign,
    /// `&=`
    AndAssign,
    /// `|=`
    OrAssign,
    /// `^=`
    XorAssign,
    /// `<<=`
    ShiftLeftAssign,
    /// `>>=`
    ShiftRightAssign,
    /// `>>>=`
    ShiftRightUnsignedAssign,
    /// `(`
    Open,
    /// `)`
    Close,
    /// `{`
    OpenBrace,
    /// `}`
    CloseBrace,
    /// `[`
    OpenBracket,
    /// `]`
    CloseBracket,
    /// `,`
    Comma,
    /// `;`
    Semicolon,
    /// `:`
    Colon,
    /// `?`
    Question,
    /// `#`
    Hash,
}

/// How many words, operators and signs there are.
const COUNT: usize = 74;

/// All of them.
pub const TERMINALS: [Terminal; COUNT] = [
    Terminal::Void,
    Terminal::Int,
    Terminal::Float,
    Terminal::String,
    Terminal::Object,
    Terminal::Vector,
    Terminal::Location,
    Terminal::Effect,
    Terminal::Event,
    Terminal::Talent,
    Terminal::ItemProperty,
    Terminal::Action,
    Terminal::Struct,
    Terminal::Const,
    Terminal::If,
    Terminal::Else,
    Terminal::While,
    Terminal::Do,
    Terminal::For,
    Terminal::Switch,
    Terminal::Case,
    Terminal::Default,
    Terminal::Break,
    Terminal::Continue,
    Terminal::Return,
    Terminal::ObjectSelf,
    Terminal::ObjectInvalid,
    Terminal::OrOr,
    Terminal::AndAnd,
    Terminal::Or,
    Terminal::Xor,
    Terminal::And,
    Terminal::Equal,
    Terminal::NotEqual,
    Terminal::GreaterEqual,
    Terminal::Greater,
    Terminal::Less,
    Terminal::LessEqual,
    Terminal::ShiftLeft,
    Terminal::ShiftRight,
    Terminal::ShiftRightUnsigned,
    Terminal::Plus,
    Terminal::Minus,
    Terminal::Star,
    Terminal::Slash,
    Terminal::Percent,
    Terminal::Not,
    Terminal::Tilde,
    Terminal::PlusPlus,
    Terminal::MinusMinus,
    Terminal::Dot,
    Terminal::Assign,
    Terminal::PlusAssign,
    Terminal::MinusAssign,
    Terminal::StarAssign,
    Terminal::SlashAssign,
    Terminal::PercentAssign,
    Terminal::AndAssign,
    Terminal::OrAssign,
    Terminal::XorAssign,
    Terminal::ShiftLeftAssign,
    Terminal::ShiftRightAssign,
    Terminal::ShiftRightUnsignedAssign,
    Terminal::Open,
    Terminal::Close,
    Terminal::OpenBrace,
    Terminal::CloseBrace,
    Terminal::OpenBracket,
    Terminal::CloseBracket,
    Terminal::Comma,
    Terminal::Semicolon,
    Terminal::Colon,
    Terminal::Question,
    Terminal::Hash,
];

/// How a terminal is written.
#[tactic(auto, unfolding(crate::specs::Terminals::spelling))]
fn spelling(terminal: Terminal) -> &'static [u8]
    ensures { result.now ≡ table.spelling terminal }
{
    match terminal {
        Terminal::Void => b"void".as_slice(),
        Terminal::Int => b"int".as_slice(),
        Terminal::Float => b"float".as_slice(),
        Terminal::String => b"string".as_slice(),
        Terminal::Object => b"object".as_slice(),
        Terminal::Vector => b"vector".as_slice(),
        Terminal::Location => b"location".as_slice(),
        Terminal::Effect => b"effect".as_slice(),
        Terminal::Event => b"event".as_slice(),
        Terminal::Talent => b"talent".as_slice(),
        Terminal::ItemProperty => b"itemproperty".as_slice(),
        Terminal::Action => b"action".as_slice(),
        Terminal::Struct => b"struct".as_slice(),
        Terminal::Const => b"const".as_slice(),
        Terminal::If => b"if".as_slice(),
        Terminal::Else => b"else".as_slice(),
        Terminal::While => b"while".as_slice(),
        Terminal::Do => b"do".as_slice(),
        Terminal::For => b"for".as_slice(),
        Terminal::Switch => b"switch".as_slice(),
        Terminal::Case => b"case".as_slice(),
        Terminal::Default => b"default".as_slice(),
        Terminal::Break => b"break".as_slice(),
        Terminal::Continue => b"continue".as_slice(),
        Terminal::Return => b"return".as_slice(),
        Terminal::ObjectSelf => b"OBJECT_SELF".as_slice(),
        Terminal::ObjectInvalid => b"OBJECT_INVALID".as_slice(),
        Terminal::OrOr => b"||".as_slice(),
        Terminal::AndAnd => b"&&".as_slice(),
        Terminal::Or => b"|".as_slice(),
        Terminal::Xor => b"^".as_slice(),
        Terminal::And => b"&".as_slice(),
        Terminal::Equal => b"==".as_slice(),
        Terminal::NotEqual => b"!=".as_slice(),
        Terminal::GreaterEqual => b">=".as_slice(),
        Terminal::Greater => b">".as_slice(),
        Terminal::Less => b"<".as_slice(),
        Terminal::LessEqual => b"<=".as_slice(),
        Terminal::ShiftLeft => b"<<".as_slice(),
        Terminal::ShiftRight => b">>".as_slice(),
        Terminal::ShiftRightUnsigned => b">>>".as_slice(),
        Terminal::Plus => b"+".as_slice(),
        Terminal::Minus => b"-".as_slice(),
        Terminal::Star => b"*".as_slice(),
        Terminal::Slash => b"/".as_slice(),
        Terminal::Percent => b"%".as_slice(),
        Terminal::Not => b"!".as_slice(),
        Terminal::Tilde => b"~".as_slice(),
        Terminal::PlusPlus => b"++".as_slice(),
        Terminal::MinusMinus => b"--".as_slice(),
        Terminal::Dot => b".".as_slice(),
        Terminal::Assign => b"=".as_slice(),
        Terminal::PlusAssign => b"+=".as_slice(),
        Terminal::MinusAssign => b"-=".as_slice(),
        Terminal::StarAssign => b"*=".as_slice(),
        Terminal::SlashAssign => b"/=".as_slice(),
        Terminal::PercentAssign => b"%=".as_slice(),
        Terminal::AndAssign => b"&=".as_slice(),
        Terminal::OrAssign => b"|=".as_slice(),
        Terminal::XorAssign => b"^=".as_slice(),
        Terminal::ShiftLeftAssign => b"<<=".as_slice(),
        Terminal::ShiftRightAssign => b">>=".as_slice(),
        Terminal::ShiftRightUnsignedAssign => b">>>=".as_slice(),
        Terminal::Open => b"(".as_slice(),
        Terminal::Close => b")".as_slice(),
        Terminal::OpenBrace => b"{".as_slice(),
        Terminal::CloseBrace => b"}".as_slice(),
        Terminal::OpenBracket => b"[".as_slice(),
        Terminal::CloseBracket => b"]".as_slice(),
        Terminal::Comma => b",".as_slice(),
        Terminal::Semicolon => b";".as_slice(),
        Terminal::Colon => b":".as_slice(),
        Terminal::Question => b"?".as_slice(),
        Terminal::Hash => b"#".as_slice(),
    }
}

/// The first of these that is written so.
fn first_written(terminals: &[Terminal], text: &[u8]) -> Option<Terminal>
    ensures { result ≡ table.first_written terminals.now text.now }
{
    for terminal in terminals {
        if spelling(*terminal) == text {
            return Some(*terminal);
        }
    }
    None
}

/// The terminal that is written so.
#[tactic(auto, unfolding(crate::specs::Terminals::terminal_of))]
pub(crate) fn terminal_of(text: &[u8]) -> Option<Terminal>
    ensures { result ≡ table.terminal_of text.now }
{
    first_written(TERMINALS.as_slice(), text)
}
