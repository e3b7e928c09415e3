//! The tokens of NWScript: [`next`] gives the first token of a file at or after a place, and
//! [`literal`] the bytes that a string token stands for.
//!
//! What a token is stands in `specs/Lexemes.antt` and `specs/Strings.antt`, as a grammar of bytes,
//! and how a file is split into tokens and gaps in `specs/Splitting.antt`. `next` is proved to give
//! exactly what those define, and the laws in `laws.rt` say that a file is split in one way only.
//! See docs/TOKENS.md.
#![tactic(auto)]

mod bytes;
mod gap;
pub mod laws;
pub mod lexer;
mod scan;
mod string;
pub mod token;
pub mod unquote;

pub use bytes::Class;
pub use lexer::next;
pub use scan::Scanned;
pub use string::{Escape, Step};
pub use token::{Lexed, Token, TokenKind};
pub use unquote::literal;
