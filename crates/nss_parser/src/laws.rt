//! Laws of the grammar, each the contract of a function that does nothing.

ghost use Rattle.nss_parser.specs.Fault.{NoRefusalOfTrees, OneRefusal};
ghost use Rattle.nss_parser.specs.Front.{OpenBodiesAlike};
ghost use Rattle.nss_parser.specs.ReadWhole.{ReadingGivesTree};
ghost use Rattle.nss_parser.specs.Sizes.{EachTreeIsKnown};
ghost use Rattle.nss_parser.specs.Weight.{EachTreeWithinTokens};
ghost use Rattle.nss_parser.specs.Sentence.{OneTree, TreeOrPlace};

/// A list of tokens has at most one tree.
pub fn one_tree()
    ensures one { OneTree }
{}

/// A list of tokens has a tree, or a place where it can have none.
pub fn tree_or_place()
    ensures either { TreeOrPlace }
{}

/// What reading a list of tokens gives is its tree.
pub fn reading_gives_tree()
    ensures read { ReadingGivesTree }
{}

/// A list of tokens is refused for one reason, and one that has a tree and nests within the limit
/// for none, want of memory aside.
pub fn one_refusal()
    ensures one { OneRefusal }
    ensures none { NoRefusalOfTrees }
{}

/// A tree has no more nodes, variables, structs and bodies than its unit has tokens, and each
/// node's token is the unit's.
pub fn within_tokens()
    ensures within { EachTreeWithinTokens }
{}

/// The numbers and texts of a tree are those of its literals, and the tree is no larger than its
/// tokens are many.
pub fn each_tree_is_known()
    ensures known { EachTreeIsKnown }
{}

/// What can follow the entries of an open body doesn't depend on them, nor on what stands before.
pub fn open_bodies_alike()
    ensures alike { OpenBodiesAlike }
{}
