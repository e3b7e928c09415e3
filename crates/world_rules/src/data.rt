ghost use Rattle.std.specs.Prelude.{◌≡◌, ◌≤◌};
ghost use Rattle.world_rules.specs.Arguments.{at_least_zero};
ghost use Rattle.world_rules.specs.Changes.{is_effect, longest_delay};

use crate::standing::Standing;
use action_queue::Queue;
use nwq_value::{Args, Effect, Items, Text, Value};

/// An effect that stands on an object. An effect for a time has the number of the agenda entry that
/// ends it; one without end has none.
#[derive(Drop)]
pub struct Stood {
    pub number: Option<u64>,
    pub effect: Effect,
}

impl Stood {
    /// Whether the effect is equal to this one.
    #[tactic(auto, using(crate::proofs::StandingLemmas::same_test))]
    pub fn is_effect(&self, effect: &Effect) -> bool
        ensures test { result ≡ is_effect effect.now self.now }
    {
        effect.same(&self.effect)
    }
}

/// A count or a time in milliseconds as a script gives it: a negative one is 0.
pub fn at_least_zero(n: i32) -> u64
    ensures count { result ≡ at_least_zero n }
    ensures int { result ≤ longest_delay }
{
    if n < 0 {
        return 0;
    }
    n as u64
}

/// What a world keeps of one object beside the area.
#[derive(Drop)]
pub struct Things<X> {
    pub queue: Queue<X>,
    pub effects: Standing,
}

/// The objects of a world in order; the first has number 1.
pub type Objects<X> = Items<Things<X>>;

/// What a line of the trace tells.
#[derive(Drop)]
pub enum Told {
    /// PrintString, PrintInteger and PrintObject leave their argument.
    Print(Value),
    Speak(Text),
    /// A world function was called: its name, and its arguments from first to last.
    Call(Text, Args),
    /// A script of this name isn't listed.
    NoScript(Text),
    /// A script of this name would run too deep.
    Deep(Text),
    /// A division by zero ended the entry.
    Divide,
    /// An effect was applied, with this duration type.
    Apply(i32, Effect),
    Remove(Effect),
    /// An effect for a time is over.
    Expire(Effect),
}

/// A line of the trace: when, on which object, and what.
#[derive(Drop)]
pub struct Line {
    pub clock: u64,
    pub object: u32,
    pub told: Told,
}

/// The lines that a world keeps, in the order in which they were told.
pub type Trace = Items<Line>;
