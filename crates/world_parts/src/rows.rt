//! The rows: what the engine's own routine of each name does.
ghost use Rattle.std.specs.Prelude.{◌≡◌, ◌<◌, ◌≤◌, ◌+◌, ◌^◌, IfOk, OnErr, None, Some, Ok};
ghost use Rattle.std.specs.Prelude.{IsErr, MatchResult};
ghost use Rattle.action_queue.specs.declared.queue.Item.TheVariants as item;
ghost use Rattle.area_rules.specs.Area.{by_tag};
ghost use Rattle.nwq_value.specs.declared.value.Value.TheVariants as value;
ghost use Rattle.world_rules.specs.declared.data.Told.TheVariants as line;
ghost use Rattle.world_rules.specs.AlikeLaws.{call};
ghost use Rattle.world_rules.specs.Arguments.{effect_at, int_at, object_at, text_at};
ghost use Rattle.world_rules.specs.Changes.{told};
ghost use Rattle.world_rules.specs.Kept.{IsWorld};
ghost use Rattle.world_rules.specs.Rows.{appended, applied_to, as_int, leaves, removed};
ghost use Rattle.world_rules.specs.World.{count};
ghost use Rattle.world_parts.specs.Row.{does};

use crate::args::{effect_copy, event_at, int_at, object_at, text_at, text_copy};
use crate::names::*;
use crate::parts::Parts;
use action_queue::Item;
use nwq_value::{Args, NoMemory, Text, Value};
use world_rules::Told;

/// The answer of a routine that gives nothing.
fn nothing(done: Result<(), NoMemory>) -> Result<Option<Value>, NoMemory>
    ensures answer { MatchResult done (λ _. result ≡ Ok None) (λ _. IsErr result) }
{
    match done {
        Ok(()) => Ok(None),
        Err(NoMemory) => Err(NoMemory),
    }
}

/// The answer of a routine that gives a string.
fn string(text: Result<Text, NoMemory>) -> Result<Option<Value>, NoMemory>
    ensures answer { MatchResult text (λ t. result ≡ Ok (Some (value.Text t))) (λ _. IsErr result) }
{
    match text {
        Ok(text) => Ok(Some(Value::Text(text))),
        Err(NoMemory) => Err(NoMemory),
    }
}

/// The answer of a test: 1 or 0.
fn test(test: bool) -> Result<Option<Value>, NoMemory>
    ensures answer { result ≡ Ok (Some (value.Int (as_int test))) }
{
    Ok(Some(Value::Int(if test { 1 } else { 0 })))
}

impl<X: Drop> Parts<X> {
    /// The routine of this number in the built-in header; a number without one does nothing. The
    /// room for a post and a line is there, and all other room is taken before anything is changed.
    /// What holds a line or an action is a call of its own, since a function clears the room of all
    /// that it may hold each time it is called.
    #[tactic(auto, unfolding(crate::specs::Row::does))]
    pub fn row(
        &mut self,
        number: u16,
        caller: u32,
        args: &Args,
        action: Option<X>,
    ) -> Result<Option<Value>, NoMemory>
        requires world { IsWorld self.old.world }
        requires caller { caller ≤ count self.old.world }
        requires room { 1 ≤ self.old.posts }
        requires line { 1 ≤ self.old.lines }
        requires few { self.old.world.agenda.next < 2 ^ 63 }
        requires early { self.old.world.clock < 2 ^ 62 }
        ensures ok { IfOk result (λ value. record { value = value; world = self.new.world }
            ≡ does number (call caller args.now action) self.old.world) }
        ensures err { OnErr result (self.new.world ≡ self.old.world) }
        ensures posts { self.old.posts ≤ self.new.posts + 1 }
    {
        match number {
            RANDOM => Ok(Some(Value::Int(self.random(int_at(args, 0))))),
            PRINT_STRING => self.print_text(caller, args),
            PRINT_INTEGER => self.print(caller, Value::Int(int_at(args, 0))),
            PRINT_OBJECT => self.print(caller, Value::Object(object_at(args, 0))),
            ASSIGN_COMMAND => {
                self.assign(object_at(args, 0), action);
                Ok(None)
            }
            DELAY_COMMAND => {
                self.delay(caller, int_at(args, 0), action);
                Ok(None)
            }
            CLEAR_ALL_ACTIONS => {
                self.clear_all(caller);
                Ok(None)
            }
            ACTION_DO_COMMAND => nothing(self.add_do(caller, action)),
            ACTION_WAIT => nothing(self.add_action(caller, Item::Wait(int_at(args, 0)))),
            ACTION_SPEAK_STRING => self.add_speech(caller, args),
            SPEAK_STRING => self.speak(caller, args),
            GET_OBJECT_BY_TAG => self.by_tag(args),
            GET_TAG => string(Text::of(self.alloc(), self.tag(object_at(args, 0)))),
            GET_IS_OBJECT_VALID => test(self.is_valid(object_at(args, 0))),
            GET_LOCAL_INT => Ok(Some(Value::Int(self.get_local_int(args)))),
            SET_LOCAL_INT => nothing(self.put_local_int(args)),
            GET_LOCAL_STRING => string(Text::of(self.alloc(), self.get_local_text(args))),
            SET_LOCAL_STRING => nothing(self.put_local_text(args)),
            DELETE_LOCAL_INT => {
                self.drop_local_int(args);
                Ok(None)
            }
            DELETE_LOCAL_STRING => {
                self.drop_local_text(args);
                Ok(None)
            }
            APPLY_EFFECT_TO_OBJECT => self.apply(args),
            REMOVE_EFFECT => self.remove(args),
            EVENT_USER_DEFINED => Ok(Some(Value::Event(int_at(args, 0)))),
            SIGNAL_EVENT => nothing(self.signal(object_at(args, 0), event_at(args, 1))),
            GET_USER_DEFINED_EVENT_NUMBER => Ok(Some(Value::Int(self.user))),
            _ => Ok(None),
        }
    }

    /// Tells an argument.
    #[inline(never)]
    fn print(&mut self, caller: u32, value: Value) -> Result<Option<Value>, NoMemory>
        requires line { 1 ≤ self.old.lines }
        ensures told { result ≡ Ok None }
        ensures world { self.new.world ≡ told caller (line.Print value) self.old.world }
        ensures posts { self.new.posts ≡ self.old.posts }
    {
        self.tell(caller, Told::Print(value));
        Ok(None)
    }

    /// Tells the first argument, a string.
    #[inline(never)]
    fn print_text(&mut self, caller: u32, args: &Args) -> Result<Option<Value>, NoMemory>
        requires line { 1 ≤ self.old.lines }
        ensures ok { IfOk result (λ given. record { value = given; world = self.new.world }
            ≡ leaves (told caller (line.Print (value.Text (text_at 0 args.now))) self.old.world)) }
        ensures err { OnErr result (self.new.world ≡ self.old.world) }
        ensures posts { self.new.posts ≡ self.old.posts }
    {
        let text = text_copy(self.alloc(), args, 0)?;
        self.print(caller, Value::Text(text))
    }

    /// Speaks the first argument.
    #[inline(never)]
    fn speak(&mut self, caller: u32, args: &Args) -> Result<Option<Value>, NoMemory>
        requires line { 1 ≤ self.old.lines }
        ensures ok { IfOk result (λ value. record { value = value; world = self.new.world }
            ≡ leaves (told caller (line.Speak (text_at 0 args.now)) self.old.world)) }
        ensures err { OnErr result (self.new.world ≡ self.old.world) }
        ensures posts { self.new.posts ≡ self.old.posts }
    {
        let text = text_copy(self.alloc(), args, 0)?;
        self.tell(caller, Told::Speak(text));
        Ok(None)
    }

    /// The caller is to speak the first argument.
    #[inline(never)]
    fn add_speech(&mut self, caller: u32, args: &Args) -> Result<Option<Value>, NoMemory>
        requires world { IsWorld self.old.world }
        requires room { 1 ≤ self.old.posts }
        requires few { self.old.world.agenda.next < 2 ^ 63 }
        ensures ok { IfOk result (λ value. record { value = value; world = self.new.world }
            ≡ leaves (appended caller (item.Speak (text_at 0 args.now)) self.old.world)) }
        ensures err { OnErr result (self.new.world ≡ self.old.world) }
        ensures posts { self.old.posts ≤ self.new.posts + 1 }
    {
        let text = text_copy(self.alloc(), args, 0)?;
        nothing(self.add_action(caller, Item::Speak(text)))
    }

    /// The object of a tag that so many others of it are before.
    fn by_tag(&self, args: &Args) -> Result<Option<Value>, NoMemory>
        ensures object { result ≡ Ok (Some (value.Object (by_tag self.now.world.area
            (text_at 0 args.now) (int_at 1 args.now)))) }
    {
        let object = self.area.by_tag(text_at(args, 0), int_at(args, 1));
        Ok(Some(Value::Object(object)))
    }

    /// Applies an effect, by its duration type, itself, its object and its time.
    #[inline(never)]
    fn apply(&mut self, args: &Args) -> Result<Option<Value>, NoMemory>
        requires world { IsWorld self.old.world }
        requires room { 1 ≤ self.old.posts }
        requires line { 1 ≤ self.old.lines }
        requires few { self.old.world.agenda.next < 2 ^ 63 }
        requires early { self.old.world.clock < 2 ^ 62 }
        ensures ok { IfOk result (λ value. record { value = value; world = self.new.world }
            ≡ leaves (applied_to (int_at 0 args.now) (object_at 2 args.now) (effect_at 1 args.now)
            (int_at 3 args.now) self.old.world)) }
        ensures err { OnErr result (self.new.world ≡ self.old.world) }
        ensures posts { self.old.posts ≤ self.new.posts + 1 }
    {
        let (duration, o, ms) = (int_at(args, 0), object_at(args, 2), int_at(args, 3));
        let effect = effect_copy(self.alloc(), args, 1)?;
        nothing(self.apply_to(duration, o, effect, ms))
    }

    /// Removes an effect of an object.
    #[inline(never)]
    fn remove(&mut self, args: &Args) -> Result<Option<Value>, NoMemory>
        requires world { IsWorld self.old.world }
        requires line { 1 ≤ self.old.lines }
        ensures ok { IfOk result (λ value. record { value = value; world = self.new.world }
            ≡ leaves (removed (object_at 0 args.now) (effect_at 1 args.now) self.old.world)) }
        ensures err { OnErr result (self.new.world ≡ self.old.world) }
        ensures posts { self.new.posts ≡ self.old.posts }
    {
        let o = object_at(args, 0);
        let effect = effect_copy(self.alloc(), args, 1)?;
        self.remove_effect(o, effect);
        Ok(None)
    }
}
