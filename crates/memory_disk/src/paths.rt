//! Where a name leads.

ghost use Rattle.std.specs.Prelude.{◌≡◌, IfOk};
ghost use Rattle.real_files.specs.Disk.{follow, link_limit};
ghost use Rattle.memory_disk.specs.Drive.{links_of};

use crate::nodes::NodeTable;
use nwq_value::NoMemory;
use real_files::paths::beside;
use std::alloc::Global;

/// The name that at most so many links of a name lead to.
#[tactic(auto, using(crate::proofs::PathLemmas::follows))]
fn follow_most(
    nodes: &NodeTable,
    alloc: Global,
    name: Vec<u8>,
    most: usize,
) -> Result<Vec<u8>, NoMemory>
    ensures ok { IfOk result (λ place.
        place.items ≡ follow most (links_of nodes.now) name.items) }
{
    if most == 0 {
        return Ok(name);
    }
    match nodes.link(name.as_slice()) {
        None => Ok(name),
        Some(text) => {
            let next = beside(alloc, name.as_slice(), text)?;
            follow_most(nodes, alloc, next, most - 1)
        }
    }
}

/// The place that a name leads to.
pub fn follow(nodes: &NodeTable, alloc: Global, name: &[u8]) -> Result<Vec<u8>, NoMemory>
    ensures ok { IfOk result (λ place.
        place.items ≡ follow link_limit (links_of nodes.now) name.now) }
{
    let start = Vec::from_slice(alloc, name)?;
    follow_most(nodes, alloc, start, 40)
}
