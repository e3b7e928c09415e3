ghost use Rattle.std.specs.Prelude.{◌≡◌, false, [], ◌∷◌, ◌++◌, drop, slice_get, OnOk, OnErr};
ghost use Rattle.std.specs.Option.{option_copied};

use nwq_value::{NoMemory, Text};
use std::alloc::Global;
use std::collections::VecDeque;
use std::marker::Model;

/// One action that an object is to do.
#[derive(Drop)]
pub enum Item<X> {
    /// Stored code, as ActionDoCommand leaves it.
    Do(X),
    /// A wait of this many milliseconds, as ActionWait leaves it.
    Wait(i32),
    /// A text to be spoken, as ActionSpeakString leaves it.
    Speak(Text),
}

/// The actions that an object is still to do, in order, and its busy mark.
///
/// The mark says that a Turn of the object is posted, or that its `Do` is being run, so that nobody
/// need post another one. Only `set_busy` changes it.
pub struct Queue<X> {
    waiting: VecDeque<Item<X>>,
    busy: bool,
}

impl<X> Model for Queue<X> {
    ghost use Rattle.action_queue.specs.Queued.{Queued};

    ghost Value = { Queued X };

    ghost view = { λ q. record { actions = q.waiting.items; busy = q.busy } };
}

impl<X: Drop> Drop for Queue<X> {
    fn drop(self) {
        let Queue { waiting, busy: _ } = self;
        drop(waiting);
    }
}

impl<X: Drop> Queue<X> {
    /// The queue of an object that has nothing to do and is not busy; takes no memory.
    pub fn new(alloc: Global) -> Queue<X>
        ensures empty { result ≡ record { actions = []; busy = false } }
    {
        Queue {
            waiting: VecDeque::new(alloc),
            busy: false,
        }
    }

    /// Puts an action last. After `NoMemory` it is dropped and the queue is as before.
    pub fn append(&mut self, item: Item<X>) -> Result<(), NoMemory>
        ensures ok { OnOk result
            (self.new ≡ record self.old { actions = self.old.actions ++ item ∷ [] }) }
        ensures err { OnErr result (self.new ≡ self.old) }
    {
        self.waiting.push_back(item)?;
        Ok(())
    }

    /// Takes the first action off the queue; `None` exactly where the queue is empty.
    pub fn take_head(&mut self) -> Option<Item<X>>
        ensures taken { result ≡ slice_get self.old.actions 0 }
        ensures left { self.new ≡ record self.old { actions = drop 1 self.old.actions } }
    {
        self.waiting.pop_front()
    }

    /// Drops every action, as ClearAllActions does; the busy mark stays.
    pub fn clear(&mut self)
        ensures empty { self.new ≡ record self.old { actions = [] } }
    {
        self.waiting.clear();
    }

    /// Whether the object is busy.
    pub fn is_busy(&self) -> bool
        ensures mark { result ≡ self.now.busy }
    {
        self.busy
    }

    /// Sets the busy mark; the actions stay.
    pub fn set_busy(&mut self, busy: bool)
        ensures mark { self.new ≡ record self.old { busy = busy } }
    {
        self.busy = busy;
    }

    /// The action at place `i`, counted from 0, the next one; `None` exactly from the count of
    /// actions on.
    pub fn at(&self, i: usize) -> Option<&Item<X>>
        ensures action { option_copied result ≡ slice_get self.now.actions i }
    {
        self.waiting.get(i)
    }
}
