//! What the marks of a unit tell of its code.

ghost use Rattle.code_places.specs.Functions.{FunctionsHold};
ghost use Rattle.code_places.specs.Laws.{NodesOwn, OwnersHold, PlacesHold, SizesAgree};
ghost use Rattle.code_places.specs.Sources.{TokensAgree, TokensHold};

/// Each instruction of a unit's code has a mark, with its size.
pub fn sizes_agree()
    ensures sizes { SizesAgree }
{}

/// Each stands in the code of the node that its mark names.
pub fn owners_hold()
    ensures owners { OwnersHold }
{}

/// The instructions of a node's code are the node's or those of nodes in it.
pub fn nodes_own()
    ensures own { NodesOwn }
{}

/// The byte at a place for which a node is told lies in an instruction that stands in that node's
/// code.
pub fn places_hold()
    ensures places { PlacesHold }
{}

/// In a typed unit the token of a node's number is the node's: an expression is the typing of one
/// that has it.
pub fn tokens_agree()
    ensures tokens { TokensAgree }
{}

/// Where a token is told for a place, the byte there lies in an instruction that stands in the code
/// of a node of that token.
pub fn tokens_hold()
    ensures tokens { TokensHold }
{}

/// The byte at a place for which a function is told lies in an instruction that stands in that
/// function's code.
pub fn functions_hold()
    ensures functions { FunctionsHold }
{}
