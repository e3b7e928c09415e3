//! Laws, as the contracts of functions that do nothing.

ghost use Rattle.gff_read.specs.Laws.{ReadTreesStand, TreesAreFew, TreesAreRead, TreesAreSound};
ghost use Rattle.gff_read.specs.Stands.{OneTree};

/// Bytes stand for one tree at most.
pub fn one_tree()
    ensures one { OneTree }
{}

/// The walk reads the tree that bytes stand for, and where their sections lie right it reads no
/// other.
pub fn read_trees_stand()
    ensures read { TreesAreRead }
    ensures stands { ReadTreesStand }
{}

/// A tree that bytes stand for is sound, and has no more structs than they.
pub fn trees_are_sound()
    ensures sound { TreesAreSound }
    ensures few { TreesAreFew }
{}
