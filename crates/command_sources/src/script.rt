ghost use Rattle.std.specs.Prelude.{◌<◌, ◌≤◌, length};
ghost use Rattle.nss_tree.specs.Reading.{plain_tree};
ghost use Rattle.nss_parser.specs.KnownOnce.{tree_once};
ghost use Rattle.nss_parser.specs.Sizes.{IsKnownTree};
ghost use Rattle.nwq_value.specs.Limits.{token_limit};

use nss_include::Unit;
use nss_tree::Tree;

/// The unit of a script, with its tree.
#[derive(Drop)]
pub struct Script {
    pub unit: Unit,
    pub tree: Tree,
    // The script's own file is among the unit's.
    ghost some: { 0 < length unit.files },
    ghost few: { (plain_tree tree).count ≤ token_limit },
    ghost known: { IsKnownTree (plain_tree tree) } by { tree_once (plain_tree tree) },
}
