/// What a token is.
#[derive(Clone, Copy, Debug, PartialEq, Eq)]
pub enum TokenKind {
    /// A name of at most 255 bytes.
    Name,
    /// One of the words that are no names, as `while`.
    Word,
    /// An int in decimal or hexadecimal, with its value.
    Int(u32),
    Float,
    /// A string with its quotes.
    Text,
    /// An operator, an assignment or another sign.
    Sign,
}

/// A token with its bytes, the number of its file and its span there.
#[derive(Clone, Copy)]
pub struct Token<'a> {
    pub kind: TokenKind,
    pub text: &'a [u8],
    pub file: u16,
    pub start: u32,
    pub end: u32,
}

/// What stands first from a place on.
#[derive(Clone, Copy)]
pub enum Lexed<'a> {
    Token(Token<'a>),
    /// Nothing but blanks and comments is left.
    End,
    /// No token, blank or closed comment begins at this place.
    Bad(u32),
}
