//! The folder of a name, and the names that lead on from there.

ghost use Rattle.std.specs.Prelude.{◌≡◌, ◌<◌, ◌≤◌, Some, length, slice_get, IfOk, IfSome};
ghost use Rattle.std.specs.Path.{slash, rfind_below};
ghost use Rattle.real_files.specs.Disk.{folder_of, is_from_root, beside};

use std::alloc::{AllocError, Global};

/// The place of the last slash among so many first bytes of a name.
#[tactic(auto, using(crate::proofs::PathLemmas::rfind_step))]
fn last_slash(name: &[u8], end: usize) -> Option<usize>
    requires inside { end ≤ length name.now }
    ensures place { result ≡ rfind_below slash name.now end }
    ensures inside { IfSome result (λ place. place < end) }
    ensures slash { IfSome result (λ place. slice_get name.now place ≡ Some slash) }
{
    if end == 0 {
        return None;
    }
    if name[end - 1] == b'/' {
        return Some(end - 1);
    }
    last_slash(name, end - 1)
}

/// The folder of a name: all up to its last slash, with that.
#[tactic(auto, using(crate::proofs::PathLemmas::folders))]
pub fn folder_of(name: &[u8]) -> &[u8]
    ensures folder { result.now ≡ folder_of name.now }
{
    match last_slash(name, name.len()) {
        Some(place) => &name[..place + 1],
        None => &name[..0],
    }
}

fn is_from_root(text: &[u8]) -> bool
    ensures { result ≡ is_from_root text.now }
{
    match text {
        [first, ..] => *first == b'/',
        [] => false,
    }
}

/// The name that the text of a link leads to, where the link has this name.
pub fn beside(alloc: Global, name: &[u8], text: &[u8]) -> Result<Vec<u8>, AllocError>
    ensures ok { IfOk result (λ place. place.items ≡ beside name.now text.now) }
{
    if is_from_root(text) {
        return Vec::from_slice(alloc, text);
    }
    let mut place = Vec::from_slice(alloc, folder_of(name))?;
    place.extend_from_slice(text)?;
    Ok(place)
}
