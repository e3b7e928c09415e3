ghost use Rattle.std.specs.Prelude.{◌≡◌};
ghost use Rattle.command_work.specs.Refusal.{cause_word};

/// Why the text of a script or of a header is refused at a place.
#[derive(Clone, Copy, Debug, PartialEq, Eq)]
pub enum Cause {
    /// No token, blank or closed comment begins there.
    Bad,
    /// The token or directive there is past the limit of a unit's tokens.
    Tokens,
    /// A directive names no include.
    Include,
    /// The token nests too deep.
    Nested,
    /// The token can't stand there, or the unit ends too early.
    Syntax,
    /// A type whose values are left out, a float literal, or a call of a routine that can't be
    /// called.
    RefusedType,
    /// A name isn't in sight.
    Unknown,
    /// A name, a function's body or a label is there a second time.
    Redeclared,
    /// A function has too few or too many arguments.
    Arity,
    /// What must be constant isn't.
    NotConst,
    /// What is written is no variable and no member of one.
    NotPlace,
    /// A `break`, a `continue` or a label stands where none may stand.
    Outside,
    /// A type is wrong in another way.
    Mismatch,
    /// A function with a result can end without one.
    NoReturn,
    /// A struct, a frame or the globals have too many cells.
    Cells,
    /// No function begins the script.
    Entry,
    /// The code would be larger than a file may be.
    Large,
    /// The token fits no line of a header, or the header ends inside one.
    Header,
    /// The name was declared before in the header.
    Twice,
    /// The function is one too many for a header.
    Many,
}

impl Cause {
    /// The word that is printed for the cause.
    pub fn word(self) -> &'static str
        ensures word { result.now ≡ cause_word self }
    {
        match self {
            Cause::Bad => "bad",
            Cause::Tokens => "tokens",
            Cause::Include => "include",
            Cause::Nested => "nested",
            Cause::Syntax => "syntax",
            Cause::RefusedType => "refusedtype",
            Cause::Unknown => "unknown",
            Cause::Redeclared => "redeclared",
            Cause::Arity => "arity",
            Cause::NotConst => "notconst",
            Cause::NotPlace => "notplace",
            Cause::Outside => "outside",
            Cause::Mismatch => "mismatch",
            Cause::NoReturn => "noreturn",
            Cause::Cells => "cells",
            Cause::Entry => "entry",
            Cause::Large => "large",
            Cause::Header => "header",
            Cause::Twice => "twice",
            Cause::Many => "many",
        }
    }
}
