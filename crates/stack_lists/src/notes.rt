ghost use Rattle.std.specs.Prelude.{◌≡◌, ◌≤◌, ◌<◌, ◌+◌, ◌^◌, ◌++◌, [], ◌∷◌, length, get_or};
ghost use Rattle.std.specs.Prelude.{IfErr, IfOk, IfSome, None, true, false, ℕ};
ghost use Rattle.stack_lists.specs.Notes.{AreNoted, IsOn};

use crate::budget::room;
use crate::places::Places;
use crate::stacks::{Link, alike};
use nwq_value::{Items, NoMemory};
use stack_shape::Slot;

/// Whether a list with this number is there, and is the one of a slot on a list.
#[tactic(auto, using(crate::proofs::Noting::standing))]
fn is_on(links: &Items<Link>, number: u32, below: u32, slot: Slot) -> bool
    ensures on { result ≡ true → IsOn links.now number below slot }
    ensures none { result ≡ false → IsOn links.now number below slot → ⊥ }
{
    if number == 0 {
        return false;
    }
    match links.get(number as usize - 1) {
        None => false,
        Some(link) => link.below == below && alike(link.slot, slot),
    }
}

/// The list of a slot on a list among those that are noted.
#[tactic(auto, using(crate::proofs::Noting::searching))]
fn search(
    links: &Items<Link>,
    newest: &Places,
    older: &Places,
    below: u32,
    slot: Slot,
) -> Option<u32>
    requires noted { AreNoted links.now newest.now older.now }
    requires next { IsOn links.now (below + 1) below slot → ⊥ }
    ensures on { IfSome result (λ number. IsOn links.now number below slot) }
    ensures none { (number : ℕ) → result ≡ None → IsOn links.now number below slot → ⊥ }
{
    let mut at = newest.get(below);
    while at > 0 {
        if is_on(links, at, below, slot) {
            return Some(at);
        }
        at = older.get(at);
    }
    None
}

/// The list of a slot on a list, where it was made before.
#[tactic(auto, using(crate::proofs::Noting::standing))]
pub fn find(
    links: &Items<Link>,
    newest: &Places,
    older: &Places,
    below: u32,
    slot: Slot,
) -> Option<u32>
    requires noted { AreNoted links.now newest.now older.now }
    requires few { below ≤ 2 ^ 25 }
    ensures on { IfSome result (λ number. IsOn links.now number below slot) }
    ensures none { (number : ℕ) → result ≡ None → IsOn links.now number below slot → ⊥ }
{
    let next = below + 1;
    if is_on(links, next, below, slot) {
        return Some(next);
    }
    search(links, newest, older, below, slot)
}

/// Adds a link, and has it found. Room for its note is made first, so that no link is kept without
/// one. The list with the number next to that of the list on which it lies needs none.
#[tactic(auto, using(crate::proofs::Noting::adding))]
pub fn add_noted(
    links: &mut Items<Link>,
    newest: &mut Places,
    older: &mut Places,
    link: Link,
) -> Result<u32, NoMemory>
    requires noted { AreNoted links.old newest.old older.old }
    requires below { link.below ≤ length links.old }
    ensures added { IfOk result (λ _. links.new ≡ links.old ++ link ∷ []) }
    ensures number { IfOk result (λ number. number ≡ length links.old + 1) }
    ensures room { IfOk result (λ _. length links.old < 2 ^ 25) }
    ensures same { IfErr result (λ _. links.new ≡ links.old) }
    ensures noted { AreNoted links.new newest.new older.new }
{
    let count = links.len();
    room(count)?;
    let number = count as u32 + 1;
    if count == link.below as usize {
        links.push(link)?;
        return Ok(number);
    }
    let last = newest.get(link.below);
    newest.put(link.below, last)?;
    if last > 0 {
        older.put(number, last)?;
    }
    links.push(link)?;
    newest.set(link.below, number);
    Ok(number)
}
