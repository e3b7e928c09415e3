//! Laws about the definitions, each the contract of a function that does nothing.

ghost use Rattle.typing_rules.specs.Laws.{FaultlessIsTyped, FaultsAreListed, ItemsAreRight};
ghost use Rattle.typing_rules.specs.Laws.{LeastIsKept, NoneKeptIsTyped, OneToken, OneTyped};
ghost use Rattle.typing_rules.specs.Laws.{SomeAnswer, TypedIsFaultless, VerdictsAreRight};
ghost use Rattle.typing_rules.specs.Numbers.{NumberedInOrder};
ghost use Rattle.typing_rules.specs.Scopes.{NamesStandFirst, ParametersOnlyAdd, StatementsOnlyAdd};

/// A unit has one typed tree at most.
pub fn one_typed()
    ensures one { OneTyped }
{}

/// A unit is typed exactly where none of its nodes is at fault.
pub fn typed_exactly()
    ensures faultless { TypedIsFaultless }
    ensures typed { FaultlessIsTyped }
{}

/// Each unit is typed or has a least fault, whose token is the only one.
pub fn one_answer()
    ensures some { SomeAnswer }
    ensures token { OneToken }
{}

/// The functions over the tree give what the rules give: the typed tree, the list of the nodes at
/// fault, and the least one of them.
pub fn verdicts_are_right()
    ensures typed { VerdictsAreRight }
    ensures listed { FaultsAreListed }
    ensures least { LeastIsKept }
    ensures settled { NoneKeptIsTyped }
{}

/// An item is typed by the functions over the tree as by the rules, whatever stands in its sight.
pub fn items_are_right()
    ensures typed { ItemsAreRight }
{}

/// The variables of a typed unit are numbered in one row from 0, in the order of their tokens.
pub fn numbered_in_order()
    ensures numbered { NumberedInOrder }
{}

/// Statements and parameters only add to what stands in sight, so the names before them are found
/// again by their count when a scope is left.
pub fn scopes_only_add()
    ensures statements { StatementsOnlyAdd }
    ensures parameters { ParametersOnlyAdd }
    ensures first { NamesStandFirst }
{}
