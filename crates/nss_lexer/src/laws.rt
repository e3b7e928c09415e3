//! Laws about the definitions, each the contract of a function that does nothing.

ghost use Rattle.nss_lexer.specs.Computed.{ComputedAreTokens};
ghost use Rattle.nss_lexer.specs.Splitting.{OneFirst, OneSplit, SomeSplit};
ghost use Rattle.nss_lexer.specs.Strings.{OneValue, ValuesAreBytes};

/// A place of a file has one first token, or the file ends there, or nothing begins there.
pub fn one_first()
    ensures one { OneFirst }
{}

/// A file is split into tokens and gaps in at most one way, and ends in one way.
pub fn one_split()
    ensures one { OneSplit }
{}

/// Each file is split from each place on.
pub fn some_split()
    ensures some { SomeSplit }
{}

/// What a string stands for is its value, and nothing else.
pub fn one_value()
    ensures one { OneValue }
{}

/// What a string of bytes stands for are bytes.
pub fn values_are_bytes()
    ensures bytes { ValuesAreBytes }
{}

/// Tokens that were computed by reading from the left are the tokens of the file, so that a proof
/// can find those of a given text.
pub fn computed_tokens()
    ensures tokens { ComputedAreTokens }
{}
