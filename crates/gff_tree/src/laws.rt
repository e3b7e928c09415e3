//! Laws, each the contract of a function that does nothing.

ghost use Rattle.gff_tree.specs.Fields.{ReplacedIsSound, AppendedIsSound, FoundIsSound};
ghost use Rattle.gff_tree.specs.Fields.{ListIsSound, NodeIsItsFields, FieldsAreTheNodes};
ghost use Rattle.gff_tree.specs.Fields.{ListIsItsNodes, NodesAreTheLists};
ghost use Rattle.gff_tree.specs.Readings.{NodeReads, ListReads};

/// Structs and their lists of fields are one another's, and a struct stays sound where a field of
/// it is replaced or a new one appended.
pub fn fields_tell()
    ensures node { NodeIsItsFields }
    ensures fields { FieldsAreTheNodes }
    ensures list { ListIsItsNodes }
    ensures nodes { NodesAreTheLists }
    ensures replaced { ReplacedIsSound }
    ensures appended { AppendedIsSound }
    ensures found { FoundIsSound }
    ensures list_sound { ListIsSound }
{}

/// Nodes and lists of the program read as plain ones, field by field and item by item.
pub fn readings_tell()
    ensures node { NodeReads }
    ensures list { ListReads }
{}
