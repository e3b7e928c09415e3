ghost use Rattle.std.specs.Prelude.{◌≡◌, ◌≤◌, ◌<◌, ◌+◌, ◌↔◌, ◌^◌, [], ◌∷◌, length, take, drop, map};
ghost use Rattle.std.specs.Prelude.{IfOk, IfSome, IsTrue, MatchOption, None, true, false};
ghost use Rattle.stack_shape.specs.TopFirst.{types_on};
ghost use Rattle.stack_shape.specs.declared.shape.Slot.{Slot};
ghost use Rattle.stack_lists.specs.declared.lists.Node.{Node};
ghost use Rattle.stack_lists.specs.Shared.{Grows, read};
ghost use Rattle.stack_lists.specs.Stacks.{AreTyped, IsJoin, IsNew, IsTop, LiesOn, from_base};
ghost use Rattle.stack_lists.specs.Stacks.{jump_depth};
ghost use Rattle.stack_lists.specs.Notes.{AreOne, IsFresh};

use crate::budget::MOST_COPIES;
use crate::lists::Node;
use crate::notes::{add_noted, find};
use crate::places::Places;
use nwq_value::{Items, NoMemory};
use stack_shape::Slot;
use std::alloc::Global;
use std::collections::BTreeMap;
use std::marker::Model;

/// A slot on the list with the number `below`.
#[derive(Clone, Copy)]
pub struct Link {
    pub slot: Slot,
    pub below: u32,
    /// How many slots the list has.
    pub depth: u32,
    /// A list that lies further down in this one.
    pub jump: u32,
    /// How many slots the list has from its topmost base on, 0 where it has none.
    pub based: u32,
}

/// So many of the topmost slots are the same in both lists.
#[derive(Clone, Copy)]
pub struct Agreed {
    pub first: u32,
    pub second: u32,
    pub count: usize,
}

/// So many of the topmost slots of one list, on another one, are the list with this number.
#[derive(Clone, Copy)]
pub struct Join {
    pub upper: u32,
    pub count: usize,
    pub lower: u32,
    pub number: u32,
}

/// Lists of slots that share their lower parts, by number: 0 is the empty list. A list has one
/// number, so one that is made again takes no room.
pub struct Stacks {
    links: Items<Link>,
    /// By a list's number: the newest list of one slot on it, but for the list with the next
    /// number, which needs no note.
    newest: Places,
    /// By a list's number: the one on the same list that was made before it.
    older: Places,
    /// By both lists: how far they were found to agree.
    agreed: BTreeMap<u64, Agreed>,
    /// By the upper and the lower list: the join of them that was made last.
    joins: BTreeMap<u64, Join>,
    /// How many slots these joins put on other lists, whether they were there before or not.
    copied: usize,
}

impl Model for Stacks {
    ghost use Rattle.std.specs.Prelude.{List};
    ghost use Rattle.stack_shape.specs.declared.shape.Slot.{Slot};
    ghost use Rattle.stack_lists.specs.declared.lists.Node.{Node};
    ghost use Rattle.stack_lists.specs.Stacks.{AllAgree, AllJoin, AreLinked, nodes_of};
    ghost use Rattle.stack_lists.specs.Notes.{AreNoted, AreOne};

    ghost Value = { List (Node Slot) };

    ghost view = { λ s. nodes_of s.links };

    ghost invariant = { λ s. AreLinked s.links × AllAgree (nodes_of s.links) s.agreed
        × AllJoin (nodes_of s.links) s.joins × AreNoted s.links s.newest s.older
        × AreOne (nodes_of s.links) };
}

impl Drop for Stacks {
    fn drop(self) {
        let Stacks {
            links,
            newest,
            older,
            agreed,
            joins,
            copied: _,
        } = self;
        drop(links);
        drop(newest);
        drop(older);
        drop(agreed);
        drop(joins);
    }
}

/// A number for a pair of numbers.
fn pair(high: u32, low: u32) -> u64 {
    ((high as u64) << 32) | low as u64
}

/// Whether two slots are the same.
pub fn alike(s: Slot, t: Slot) -> bool
    ensures { IsTrue result ↔ (s ≡ t) }
{
    s == t
}

impl Stacks {
    #[tactic(auto, using(crate::proofs::Noting::beginning))]
    pub fn new(alloc: Global) -> Self
        ensures empty { result ≡ [] }
    {
        Stacks {
            links: Items::new(alloc),
            newest: Places::new(alloc),
            older: Places::new(alloc),
            agreed: BTreeMap::new(alloc),
            joins: BTreeMap::new(alloc),
            copied: 0,
        }
    }

    /// How many nodes there are.
    #[tactic(auto, using(crate::proofs::Links::counting))]
    pub fn len(&self) -> usize
        ensures count { result ≡ length self.now }
        ensures few { result ≤ 2 ^ 25 }
    {
        self.links.len()
    }

    /// The top of a list.
    #[tactic(auto, using(crate::proofs::Links::linking))]
    fn link(&self, number: u32) -> Option<Link>
        ensures { MatchOption result (read self.now number ≡ [])
            (λ link. IsTop self.now number link) }
    {
        if number == 0 {
            return None;
        }
        match self.links.get(number as usize - 1) {
            None => None,
            Some(link) => Some(*link),
        }
    }

    /// How many slots a list has.
    #[tactic(auto, using(crate::proofs::Links::measuring))]
    pub fn depth(&self, number: u32) -> u32
        ensures depth { result ≡ length (read self.now number) }
        ensures few { result ≤ 2 ^ 25 }
    {
        match self.link(number) {
            None => 0,
            Some(link) => link.depth,
        }
    }

    /// How many slots a list has from its topmost base on, 0 where it has none.
    #[tactic(auto, using(crate::proofs::Links::basing))]
    pub fn based(&self, number: u32) -> u32
        ensures based { result ≡ from_base (read self.now number) }
    {
        match self.link(number) {
            None => 0,
            Some(link) => link.based,
        }
    }

    /// Whether so many slots are there, and the topmost ones are values: the list's topmost base
    /// tells, without a look at them.
    #[tactic(auto, using(crate::proofs::Links::valuing))]
    pub fn are_values(&self, number: u32, count: usize) -> bool
        ensures there { result ≡ true → AreTyped count (read self.now number) }
        ensures none { result ≡ false → types_on count (read self.now number) ≡ None }
    {
        let values = self.depth(number).saturating_sub(self.based(number));
        if count <= values as usize {
            true
        } else {
            false
        }
    }

    /// The top of a list, and what lies beneath it.
    pub fn pop(&self, number: u32) -> Option<(Slot, u32)>
        ensures top { MatchOption result (read self.now number ≡ [])
            (λ top. read self.now number ≡ top.0 ∷ read self.now top.1) }
        ensures older { IfSome result (λ top. top.1 < number) }
        ensures inside { IfSome result (λ top. top.1 ≤ length self.now) }
    {
        match self.link(number) {
            None => None,
            Some(link) => Some((link.slot, link.below)),
        }
    }

    /// Whether a list has no slots.
    pub fn is_empty(&self, number: u32) -> bool
        ensures empty { IsTrue result ↔ (read self.now number ≡ []) }
    {
        match self.pop(number) {
            None => true,
            Some(_) => false,
        }
    }

    /// The list of a slot on top of a list.
    #[tactic(auto, using(crate::proofs::Noting::finding))]
    pub fn push(&mut self, below: u32, slot: Slot) -> Result<u32, NoMemory>
        requires inside { below ≤ length self.old }
        ensures reads { IfOk result (λ number. read self.new number ≡ slot ∷ read self.old below) }
        ensures inside { IfOk result (λ number. number ≤ length self.new) }
        ensures grows { IfOk result (λ _. Grows self.old self.new) }
        // A list that was made before has the number that it had.
        ensures one { AreOne self.new }
    {
        match find(&self.links, &self.newest, &self.older, below, slot) {
            Some(number) => Ok(number),
            None => self.add(below, slot),
        }
    }

    /// Adds the list of a slot on a list, which was not made before.
    fn add(&mut self, below: u32, slot: Slot) -> Result<u32, NoMemory>
        requires inside { below ≤ length self.old }
        requires fresh { IsFresh self.old below slot }
        ensures reads { IfOk result (λ number. read self.new number ≡ slot ∷ read self.old below) }
        ensures inside { IfOk result (λ number. number ≤ length self.new) }
        ensures grows { IfOk result (λ _. Grows self.old self.new) }
        ensures one { AreOne self.new }
    {
        let depth = self.depth(below) + 1;
        let jump = self.jump_from(below);
        let based = self.based_on(below, slot);
        self.add_link(Link {
            slot,
            below,
            depth,
            jump,
            based,
        })
    }

    /// How many slots the list of a slot on a list has from its topmost base on.
    fn based_on(&self, below: u32, slot: Slot) -> u32
        ensures based { result ≡ from_base (slot ∷ read self.now below) }
    {
        match slot {
            Slot::Base => self.depth(below) + 1,
            Slot::Of(_) => self.based(below),
        }
    }

    /// Adds a link, if there is room for it.
    #[tactic(auto, using(crate::proofs::Links::adding))]
    fn add_link(&mut self, link: Link) -> Result<u32, NoMemory>
        requires new { IsNew self.old link }
        requires fresh { IsFresh self.old link.below link.slot }
        ensures reads { IfOk result (λ number.
            read self.new number ≡ link.slot ∷ read self.old link.below) }
        ensures inside { IfOk result (λ number. number ≤ length self.new) }
        ensures grows { IfOk result (λ _. Grows self.old self.new) }
        ensures one { AreOne self.new }
    {
        add_noted(&mut self.links, &mut self.newest, &mut self.older, link)
    }

    /// The list to which one leads that lies on this one: twice as far down as this one's, where
    /// its two jumps are equally long.
    #[tactic(auto, using(crate::proofs::Links::jumping))]
    fn jump_from(&self, below: u32) -> u32
        requires inside { below ≤ length self.now }
        ensures on { LiesOn self.now below result }
        ensures inside { result ≤ below }
        ensures far { length (read self.now result) ≡
            jump_depth (length (read self.now below) + 1) }
    {
        match self.link(below) {
            None => below,
            Some(link) => {
                let near = self.depth(link.jump);
                match self.link(link.jump) {
                    None => below,
                    Some(next) => {
                        let far = self.depth(next.jump);
                        if link.depth as u64 + far as u64 == near as u64 + near as u64 {
                            next.jump
                        } else {
                            below
                        }
                    }
                }
            }
        }
    }

    /// A list further down that still has so many slots.
    #[tactic(auto, using(crate::proofs::Links::nearing))]
    fn nearer(&self, number: u32, depth: u32) -> u32
        requires deep { depth < length (read self.now number) }
        ensures on { LiesOn self.now number result }
        ensures older { result < number }
        ensures deep { depth ≤ length (read self.now result) }
    {
        match self.link(number) {
            None => unreachable!(),
            Some(link) => {
                if depth <= self.depth(link.jump) {
                    link.jump
                } else {
                    link.below
                }
            }
        }
    }

    /// What lies lowest in a list: so many slots.
    #[tactic(auto, using(crate::proofs::Links::lowest))]
    fn lowest(&self, number: u32, depth: u32) -> u32
        requires deep { depth ≤ length (read self.now number) }
        ensures on { LiesOn self.now number result }
        ensures depth { length (read self.now result) ≡ depth }
        ensures inside { result ≤ number }
    {
        let mut at = number;
        while depth < self.depth(at) {
            at = self.nearer(at, depth);
        }
        at
    }

    /// The list below so many slots.
    #[tactic(auto, using(crate::proofs::Links::lowering))]
    pub fn lower(&self, number: u32, count: usize) -> u32
        ensures reads { read self.now result ≡ drop count (read self.now number) }
        ensures inside { result ≤ number }
    {
        let depth = self.depth(number) as usize;
        if count >= depth {
            return 0;
        }
        self.lowest(number, (depth - count) as u32)
    }

    /// Whether so many of the topmost slots are the same in both lists. It stops where they meet.
    #[tactic(auto, using(crate::proofs::Walks::comparing, crate::proofs::Links::fronts))]
    fn same_front(&self, a: u32, b: u32, count: usize) -> bool
        ensures { IsTrue result
            ↔ (take count (read self.now a) ≡ take count (read self.now b)) }
    {
        let mut x = a;
        let mut y = b;
        let mut left = count;
        while left > 0 && x != y {
            match (self.pop(x), self.pop(y)) {
                (None, None) => return true,
                (None, Some(_)) => return false,
                (Some(_), None) => return false,
                (Some((s, rest)), Some((t, other))) => {
                    if !alike(s, t) {
                        return false;
                    }
                    x = rest;
                    y = other;
                }
            }
            left -= 1;
        }
        true
    }

    /// How many of the topmost slots were found to be the same in both lists.
    #[tactic(auto, using(crate::proofs::Links::knowing))]
    fn known(&self, a: u32, b: u32) -> usize
        ensures { take result (read self.now a) ≡ take result (read self.now b) }
    {
        match self.agreed.get(&pair(a, b)) {
            None => 0,
            Some(agreed) => {
                if agreed.first == a && agreed.second == b {
                    agreed.count
                } else {
                    0
                }
            }
        }
    }

    /// Keeps how far two lists agree.
    #[tactic(auto, using(crate::proofs::Links::agree_kept, crate::proofs::Links::agree_unchanged))]
    fn keep(&mut self, agreed: Agreed) -> Result<(), NoMemory>
        requires inside { (agreed.first ≤ length self.old) × (agreed.second ≤ length self.old) }
        requires same { take agreed.count (read self.old agreed.first)
            ≡ take agreed.count (read self.old agreed.second) }
        ensures same { self.new ≡ self.old }
    {
        match self
            .agreed
            .insert(pair(agreed.first, agreed.second), agreed)
        {
            Ok(_) => Ok(()),
            Err(_) => Err(NoMemory),
        }
    }

    /// Whether so many of the topmost slots are the same in both lists. What was found is kept, so
    /// the next question about these two looks at further slots alone.
    #[tactic(auto, using(crate::proofs::Links::agreeing))]
    pub fn agree(&mut self, a: u32, b: u32, count: usize) -> Result<bool, NoMemory>
        requires inside { (a ≤ length self.old) × (b ≤ length self.old) }
        ensures same { self.new ≡ self.old }
        ensures agree { IfOk result (λ agree. IsTrue agree
            ↔ (take count (read self.old a) ≡ take count (read self.old b))) }
    {
        if count <= 8 || a == b {
            return Ok(self.same_front(a, b, count));
        }
        let known = self.known(a, b);
        if count <= known {
            return Ok(true);
        }
        let (x, y) = (self.lower(a, known), self.lower(b, known));
        if !self.same_front(x, y, count - known) {
            return Ok(false);
        }
        self.keep(Agreed {
            first: a,
            second: b,
            count,
        })?;
        Ok(true)
    }

    /// So many of a list's topmost slots on another list, where that was made last of these two.
    #[tactic(auto, using(crate::proofs::Links::joining))]
    pub fn joined(&self, upper: u32, count: usize, lower: u32) -> Option<u32>
        ensures join { IfSome result (λ number. IsJoin self.now (record {
          upper = upper;
          count = count;
          lower = lower;
          number = number;
        })) }
    {
        match self.joins.get(&pair(upper, lower)) {
            None => None,
            Some(join) => {
                if join.upper == upper && join.lower == lower && join.count == count {
                    Some(join.number)
                } else {
                    None
                }
            }
        }
    }

    /// Keeps what a join made. Its slots count in a budget of their own, since those that are found
    /// again take no room, but time.
    pub fn keep_join(&mut self, join: Join) -> Result<(), NoMemory>
        requires is { IsJoin self.old join }
        ensures same { self.new ≡ self.old }
    {
        if join.count > MOST_COPIES.saturating_sub(self.copied) {
            return Err(NoMemory);
        }
        self.copied = self.copied.saturating_add(join.count);
        match self.joins.insert(pair(join.upper, join.lower), join) {
            Ok(_) => Ok(()),
            Err(_) => Err(NoMemory),
        }
    }
}
