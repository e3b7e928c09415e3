//! Calls on the slots.
ghost use Rattle.std.specs.Prelude.{◌≡◌, ◌≢◌, ◌≤◌, ◌<◌, ◌+◌, [], None, Some, false, true};
ghost use Rattle.std.specs.Prelude.{filter, length, OnOk, OnErr, IfErr};
ghost use Rattle.std.specs.VecDeque.{deque_capacity};
ghost use Rattle.stamped_slots.specs.Stamps.{at, put};
ghost use Rattle.stamped_slots.specs.Kept.{seen, Ascend, below, has_stamp, item_at, written};
ghost use Rattle.stamped_slots.specs.Kept.{is_full, front_is_empty, IsKept};

use std::alloc::AllocFailed;
use std::collections::VecDeque;
use std::mem;

/// A slot under its stamp. Once what stood in it was taken out it is empty.
#[derive(Drop)]
pub struct Slot<T> {
    pub stamp: u64,
    pub item: Option<T>,
}

pub(crate) type Slots<T> = VecDeque<Slot<T>>;

/// Where the place of a stamp is, if no stamp was left out behind the first slot's.
fn likely_place<T>(slots: &Slots<T>, stamp: u64) -> usize
    ensures inside { result ≤ length slots.now.items }
{
    match slots.front() {
        None => 0,
        Some(first) => {
            let ahead = stamp.saturating_sub(first.stamp);
            if ahead < slots.len() as u64 {
                ahead as usize
            } else {
                slots.len()
            }
        }
    }
}

/// Whether the slot before a place has a lesser stamp, or there is none.
#[tactic(auto, using(crate::proofs::SlotLemmas::below_steps))]
fn passes<T>(slots: &Slots<T>, at: usize, stamp: u64) -> bool
    requires ascend { Ascend 0 slots.now.items }
    requires inside { at ≤ length slots.now.items }
    ensures passed { result ≡ true → at ≤ below stamp slots.now.items }
{
    if at == 0 {
        return true;
    }
    slots[at - 1].stamp < stamp
}

/// Whether the slot at a place has no lesser stamp, or there is none.
#[tactic(auto, using(crate::proofs::SlotLemmas::below_steps))]
fn stops<T>(slots: &Slots<T>, at: usize, stamp: u64) -> bool
    requires inside { at ≤ length slots.now.items }
    ensures stopped { result ≡ true → below stamp slots.now.items ≤ at }
{
    if at == slots.len() {
        return true;
    }
    stamp <= slots[at].stamp
}

/// The place of a stamp: how many slots have a lesser one. Mostly no stamp was left out, or the
/// place is behind all slots: then two looks are enough.
#[tactic(auto, using(crate::proofs::SlotLemmas::below_steps))]
pub(crate) fn below<T>(slots: &Slots<T>, stamp: u64) -> usize
    requires ascend { Ascend 0 slots.now.items }
    ensures place { result ≡ below stamp slots.now.items }
    ensures inside { result ≤ length slots.now.items }
{
    let likely = likely_place(slots, stamp);
    if passes(slots, likely, stamp) && stops(slots, likely, stamp) {
        return likely;
    }
    let mut low = 0;
    let mut high = slots.len();
    while low < high {
        let middle = low + (high - low) / 2;
        if slots[middle].stamp < stamp {
            low = middle + 1;
        } else {
            high = middle;
        }
    }
    low
}

/// Whether the slot at a place is of this stamp.
#[tactic(auto, using(crate::proofs::SlotLemmas::stamp_is, crate::proofs::SlotLemmas::no_stamp))]
pub(crate) fn is_of<T>(slots: &Slots<T>, at: usize, stamp: u64) -> bool
    requires inside { at ≤ length slots.now.items }
    ensures test { result ≡ has_stamp stamp at slots.now.items }
    ensures inside { result ≡ true → at < length slots.now.items }
{
    if at == slots.len() {
        return false;
    }
    slots[at].stamp == stamp
}

/// Writes what stands in the slot at a place. What stood there is the answer.
#[tactic(auto, using(crate::proofs::SlotLemmas::item_is, crate::proofs::SlotLemmas::set_written))]
pub(crate) fn exchange<T>(slots: &mut Slots<T>, at: usize, item: Option<T>) -> Option<T>
    requires inside { at < length slots.old.items }
    ensures was { result ≡ item_at at slots.old.items }
    ensures now { slots.new.items ≡ written at item slots.old.items }
    ensures room { deque_capacity slots.new ≡ deque_capacity slots.old }
{
    mem::replace(&mut slots[at].item, item)
}

/// Whether the first slot is empty.
fn front_is_empty<T>(slots: &Slots<T>) -> bool
    ensures test { result ≡ front_is_empty slots.now.items }
{
    match slots.front() {
        Some(slot) => slot.item.is_none(),
        None => false,
    }
}

/// Lets the empty slots in front go.
#[tactic(auto, using(crate::proofs::SlotLemmas::front_steps))]
fn drop_front<T: Drop>(slots: &mut Slots<T>)
    requires ascend { Ascend 0 slots.old.items }
    ensures same { seen slots.new.items ≡ seen slots.old.items }
    ensures ascend { Ascend 0 slots.new.items }
    ensures first { front_is_empty slots.new.items ≡ false }
{
    while front_is_empty(slots) {
        drop(slots.pop_front());
    }
}

/// Lets all empty slots go, and the memory that isn't needed.
fn compact<T: Drop>(slots: &mut Slots<T>)
    ensures full { slots.new.items ≡ filter is_full slots.old.items }
    ensures gone { slots.new.items ≡ [] → deque_capacity slots.new ≡ 0 }
{
    slots.retain(
        |slot: &Slot<T>| -> bool
            ensures { result ≡ is_full slot.now }
        { slot.item.is_some() },
    );
    slots.shrink_to_fit();
}

/// Lets the empty slots in front go, and all of them where they are half of the slots or more.
#[tactic(auto, using(crate::proofs::SlotLemmas::kept_whole, crate::proofs::SlotLemmas::kept_compact))]
pub(crate) fn settle<T: Drop>(slots: &mut Slots<T>, live: usize)
    requires ascend { Ascend 0 slots.old.items }
    requires counted { live ≡ length (seen slots.old.items) }
    ensures same { seen slots.new.items ≡ seen slots.old.items }
    ensures kept { IsKept live slots.new.items (deque_capacity slots.new) }
{
    drop_front(slots);
    if live <= slots.len() / 2 {
        compact(slots);
    }
}

/// What stands in a slot that isn't empty.
fn item_of<T: Drop>(slot: Slot<T>) -> T
    requires full { slot.item ≢ None }
    ensures item { slot.item ≡ Some result }
{
    match slot.item {
        Some(item) => item,
        None => unreachable!(),
    }
}

/// Puts the only item. There is memory for it alone then. For want of memory it comes back.
#[tactic(auto, using(crate::proofs::SlotLemmas::kept_one))]
pub(crate) fn put_only<T: Drop>(
    slots: &mut Slots<T>,
    stamp: u64,
    item: T,
) -> Result<(), AllocFailed<T>>
    requires none { slots.old.items ≡ [] }
    requires gone { deque_capacity slots.old ≡ 0 }
    ensures ok { OnOk result (seen slots.new.items ≡ put stamp item (seen slots.old.items)) }
    ensures kept { OnOk result (IsKept 1 slots.new.items (deque_capacity slots.new)) }
    ensures room { OnOk result (deque_capacity slots.new ≡ 1) }
    ensures err { OnErr result (slots.new.items ≡ []) }
    ensures gone { OnErr result (deque_capacity slots.new ≡ 0) }
    ensures back { IfErr result (λ failed. failed.value ≡ item) }
{
    match slots.reserve_exact(1) {
        Err(_) => Err(AllocFailed { value: item }),
        Ok(()) => {
            slots.push_back_reserved(Slot {
                stamp,
                item: Some(item),
            });
            Ok(())
        }
    }
}

/// Puts an item among others. For want of memory it comes back.
#[tactic(auto, using(crate::proofs::SlotLemmas::kept_filled, crate::proofs::SlotLemmas::kept_added, crate::proofs::SlotLemmas::kept_same))]
pub(crate) fn put_among<T: Drop>(
    slots: &mut Slots<T>,
    live: usize,
    stamp: u64,
    item: T,
) -> Result<(), AllocFailed<T>>
    requires kept { IsKept live slots.old.items (deque_capacity slots.old) }
    requires some { 0 < length slots.old.items }
    requires new { at stamp (seen slots.old.items) ≡ None }
    ensures ok { OnOk result (seen slots.new.items ≡ put stamp item (seen slots.old.items)) }
    ensures kept { OnOk result (IsKept (live + 1) slots.new.items (deque_capacity slots.new)) }
    ensures err { OnErr result (seen slots.new.items ≡ seen slots.old.items) }
    ensures same { OnErr result (IsKept live slots.new.items (deque_capacity slots.new)) }
    ensures back { IfErr result (λ failed. failed.value ≡ item) }
{
    let at = below(slots, stamp);
    if is_of(slots, at, stamp) {
        drop(exchange(slots, at, Some(item)));
        return Ok(());
    }
    let slot = Slot {
        stamp,
        item: Some(item),
    };
    match slots.insert(at, slot) {
        Ok(()) => Ok(()),
        Err(failed) => Err(AllocFailed {
            value: item_of(failed.value),
        }),
    }
}
