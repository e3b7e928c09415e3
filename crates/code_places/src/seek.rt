//! The way to the instruction that a byte of the code lies in.

ghost use Rattle.std.specs.Prelude.{◌≡◌, ◌+◌, length};
ghost use Rattle.code_places.specs.Marks.{constant_mark, mark, mark_if};
ghost use Rattle.code_places.specs.Seeking.{is_found, node_found, passed, sought};

use nwq_value::Const;

/// The way to a byte of the code.
#[derive(Clone, Copy)]
pub(crate) enum Seek {
    /// So many bytes stand before it.
    Ahead(u32),
    /// Its instruction was met, which is this node's, or no node's.
    Found(Option<u32>),
}

/// The way after one instruction of the node.
pub(crate) fn pass(seek: Seek, size: u32, node: Option<u32>) -> Seek
    ensures { result ≡ passed (mark size node) seek }
{
    match seek {
        Seek::Ahead(left) => {
            if left < size {
                Seek::Found(node)
            } else {
                Seek::Ahead(left - size)
            }
        }
        Seek::Found(node) => Seek::Found(node),
    }
}

/// The way after an instruction that is there or not.
#[tactic(auto, using(crate::proofs::Seeking::seek_laws))]
pub(crate) fn pass_if(seek: Seek, any: bool, size: u32, node: Option<u32>) -> Seek
    ensures { result ≡ sought (mark_if any size node) seek }
{
    if any { pass(seek, size, node) } else { seek }
}

/// The way after the instruction that pushes a text of so many bytes.
fn pass_text(seek: Seek, len: usize, node: Option<u32>) -> Seek
    ensures { result ≡ passed (mark (2 + (2 + len)) node) seek }
{
    match seek {
        Seek::Ahead(left) => {
            if left < 4 || ((left - 4) as usize) < len {
                Seek::Found(node)
            } else {
                Seek::Ahead(left - 4 - len as u32)
            }
        }
        Seek::Found(node) => Seek::Found(node),
    }
}

/// The way after the instruction that pushes a constant.
pub(crate) fn pass_constant(seek: Seek, constant: &Const, node: Option<u32>) -> Seek
    ensures { result ≡ passed (constant_mark node constant.now) seek }
{
    match constant {
        Const::Int(_) => pass(seek, 6, node),
        Const::Text(text) => pass_text(seek, text.bytes().len(), node),
        Const::SelfObject => pass(seek, 6, node),
        Const::InvalidObject => pass(seek, 6, node),
    }
}

/// Whether the instruction was met.
pub(crate) fn is_found(seek: Seek) -> bool
    ensures { result ≡ is_found seek }
{
    match seek {
        Seek::Ahead(_) => false,
        Seek::Found(_) => true,
    }
}

/// The node that was met.
pub(crate) fn node_of(seek: Seek) -> Option<u32>
    ensures { result ≡ node_found seek }
{
    match seek {
        Seek::Ahead(_) => None,
        Seek::Found(node) => node,
    }
}
