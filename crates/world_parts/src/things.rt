//! What is kept of objects beside the area, changed for one object at a time.
ghost use Rattle.std.specs.Prelude.{◌≡◌, ◌≤◌, ◌∷◌, ◌++◌, [], drop, length, slice_get, Some};
ghost use Rattle.std.specs.Prelude.{OnOk, OnErr};
ghost use Rattle.std.specs.List.{find};
ghost use Rattle.world_rules.specs.Changes.{changed_object, is_effect, is_numbered, without_first};
ghost use Rattle.world_rules.specs.World.{things_at, queue_in, effects_in};

use action_queue::Item;
use nwq_value::{Effect, NoMemory};
use world_rules::{Stood, Things};

/// Sets an object's mark; its actions stay.
pub(crate) fn set_busy<X: Drop>(things: &mut Vec<Things<X>>, o: u32, busy: bool)
    requires first { 1 ≤ o }
    requires within { o ≤ length things.old.items }
    ensures mark { things.new.items ≡ changed_object o (λ t. record t {
      queue = record (queue_in (things_at o things.old.items)) { busy = busy };
    }) things.old.items }
{
    let object = &mut things[o as usize - 1];
    object.queue.set_busy(busy);
}

/// Drops an object's actions; its mark stays.
pub(crate) fn clear<X: Drop>(things: &mut Vec<Things<X>>, o: u32)
    requires first { 1 ≤ o }
    requires within { o ≤ length things.old.items }
    ensures empty { things.new.items ≡ changed_object o (λ t. record t {
      queue = record (queue_in (things_at o things.old.items)) { actions = [] };
    }) things.old.items }
{
    let object = &mut things[o as usize - 1];
    object.queue.clear();
}

/// Puts an action last in an object's queue. After `NoMemory` it is dropped, and the queue as
/// before.
pub(crate) fn append<X: Drop>(
    things: &mut Vec<Things<X>>,
    o: u32,
    item: Item<X>,
) -> Result<(), NoMemory>
    requires first { 1 ≤ o }
    requires within { o ≤ length things.old.items }
    ensures ok { OnOk result (things.new.items ≡ changed_object o (λ t. record t {
      queue = record (queue_in (things_at o things.old.items)) {
        actions = (queue_in (things_at o things.old.items)).actions ++ item ∷ [];
      };
    }) things.old.items) }
    ensures err { OnErr result (things.new.items ≡ things.old.items) }
{
    let object = &mut things[o as usize - 1];
    object.queue.append(item)
}

/// Takes the first action off an object's queue.
pub(crate) fn take_head<X: Drop>(things: &mut Vec<Things<X>>, o: u32) -> Option<Item<X>>
    requires first { 1 ≤ o }
    requires within { o ≤ length things.old.items }
    ensures taken { result ≡ slice_get (queue_in (things_at o things.old.items)).actions 0 }
    ensures left { things.new.items ≡ changed_object o (λ t. record t {
      queue = record (queue_in (things_at o things.old.items)) {
        actions = drop 1 (queue_in (things_at o things.old.items)).actions;
      };
    }) things.old.items }
{
    let object = &mut things[o as usize - 1];
    object.queue.take_head()
}

/// Puts an effect last on an object. After `NoMemory` it is dropped, and the others as before.
pub(crate) fn add_effect<X: Drop>(
    things: &mut Vec<Things<X>>,
    o: u32,
    stood: Stood,
) -> Result<(), NoMemory>
    requires first { 1 ≤ o }
    requires within { o ≤ length things.old.items }
    ensures ok { OnOk result (things.new.items ≡ changed_object o (λ t. record t {
      effects = effects_in (things_at o things.old.items) ++ stood ∷ [];
    }) things.old.items) }
    ensures err { OnErr result (things.new.items ≡ things.old.items) }
{
    let object = &mut things[o as usize - 1];
    object.effects.push(stood)
}

/// Takes the first effect of this number off an object, where there is one.
pub(crate) fn take_numbered<X: Drop>(
    things: &mut Vec<Things<X>>,
    o: u32,
    number: u64,
) -> Option<Stood>
    requires first { 1 ≤ o }
    requires within { o ≤ length things.old.items }
    ensures taken { result ≡ find (is_numbered number) (effects_in (things_at o things.old.items)) }
    ensures left { things.new.items ≡ changed_object o (λ t. record t {
      effects = without_first (is_numbered number) (effects_in (things_at o things.old.items));
    }) things.old.items }
{
    let object = &mut things[o as usize - 1];
    object.effects.take_numbered(number)
}

/// Takes the first effect that is equal to this one off an object, where there is one.
pub(crate) fn take_equal<X: Drop>(
    things: &mut Vec<Things<X>>,
    o: u32,
    effect: &Effect,
) -> Option<Stood>
    requires first { 1 ≤ o }
    requires within { o ≤ length things.old.items }
    ensures taken { result
        ≡ find (is_effect effect.now) (effects_in (things_at o things.old.items)) }
    ensures left { things.new.items ≡ changed_object o (λ t. record t {
      effects = without_first (is_effect effect.now) (effects_in (things_at o things.old.items));
    }) things.old.items }
{
    let object = &mut things[o as usize - 1];
    object.effects.take_equal(effect)
}

/// What is kept of an object.
pub(crate) fn of_object<X>(things: &[Things<X>], o: u32) -> &Things<X>
    requires first { 1 ≤ o }
    requires within { o ≤ length things.now }
    ensures object { things_at o things.now ≡ Some result.now }
{
    &things[o as usize - 1]
}
