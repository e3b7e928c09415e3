//! The law of the writing, the contract of a function that does nothing.

ghost use Rattle.gff_write.specs.Laws.{WrittenStands};

/// The file that a tree is written as stands for the tree.
pub fn written_stands()
    ensures stands { WrittenStands }
{}
