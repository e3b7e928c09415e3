//! Laws about terminals, the contract of a function that does nothing.

ghost use Rattle.nss_symbols.specs.Terminals.{EachIsRead, EachSignIsTerminal, EachWordIsTerminal};
ghost use Rattle.nss_symbols.specs.Terminals.{IsWrittenSo};

/// A text is read as a terminal exactly where that is written so, and the lexer's words and signs
/// all are terminals.
pub fn terminals_are_read()
    ensures each { EachIsRead }
    ensures written { IsWrittenSo }
    ensures words { EachWordIsTerminal }
    ensures signs { EachSignIsTerminal }
{}
