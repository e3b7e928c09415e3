ghost use Rattle.std.specs.Prelude.{◌≡◌, ◌≤◌, ◌<◌, [], ◌∷◌, length, IfOk, OnErr, IfSome};
ghost use Rattle.std.specs.Prelude.{MatchOption, ◌++◌, ◌↔◌, IsTrue};
ghost use Rattle.stack_lists.specs.Budget.{most_numbers};
ghost use Rattle.stack_lists.specs.Shared.{Grows, read};

use crate::budget::number_left;
use nwq_value::{Items, NoMemory};
use std::alloc::Global;
use std::marker::Model;

/// A list's top, on the list with the number `below`.
#[derive(Clone, Copy)]
pub struct Node<T> {
    pub item: T,
    pub below: u32,
}

/// Lists that share their lower parts, by number: 0 is the empty list, and k + 1 the list whose top
/// is node k.
#[derive(Drop)]
pub struct Lists<T> {
    nodes: Items<Node<T>>,
}

impl<T> Model for Lists<T> {
    ghost use Rattle.std.specs.Prelude.{List};
    ghost use Rattle.stack_lists.specs.declared.lists.Node.{Node};

    ghost Value = { List (Node T) };

    ghost use Rattle.std.specs.Prelude.{◌≤◌, length};
    ghost use Rattle.stack_lists.specs.Shared.{AreOlder};
    ghost use Rattle.stack_lists.specs.Budget.{most_numbers};

    ghost view = { λ l. l.nodes };

    ghost invariant = { λ l. AreOlder l.nodes × (length l.nodes ≤ most_numbers) };
}

impl<T> Lists<T> {
    pub fn new(alloc: Global) -> Self
        ensures empty { result ≡ [] }
    {
        Lists {
            nodes: Items::new(alloc),
        }
    }

    /// How many nodes there are.
    pub fn len(&self) -> usize
        ensures count { result ≡ length self.now }
        ensures few { result ≤ most_numbers }
    {
        self.nodes.len()
    }
}

impl<T: Copy> Lists<T> {
    /// The list of an item on top of a list. `NoMemory` comes where memory is refused, and past
    /// 2^32 - 1 nodes.
    #[tactic(auto, using(crate::proofs::SharedLists::pushing))]
    pub fn push(&mut self, below: u32, item: T) -> Result<u32, NoMemory>
        requires inside { below ≤ length self.old }
        ensures reads { IfOk result (λ number. read self.new number ≡ item ∷ read self.old below) }
        ensures inside { IfOk result (λ number. number ≤ length self.new) }
        ensures grows { IfOk result (λ _. Grows self.old self.new) }
        ensures added { IfOk result (λ number.
            self.new ≡ self.old ++ record { item = item; below = below } ∷ []) }
        ensures err { OnErr result (self.new ≡ self.old) }
    {
        let count = self.nodes.len();
        number_left(count)?;
        self.nodes.push(Node { item, below })?;
        Ok(count as u32 + 1)
    }

    /// The top of a list, and what lies beneath it.
    #[tactic(auto, using(crate::proofs::SharedLists::popping))]
    pub fn pop(&self, number: u32) -> Option<(T, u32)>
        ensures top { MatchOption result (read self.now number ≡ [])
            (λ top. read self.now number ≡ top.0 ∷ read self.now top.1) }
        ensures older { IfSome result (λ top. top.1 < number) }
        ensures inside { IfSome result (λ top. top.1 ≤ length self.now) }
    {
        if number == 0 {
            return None;
        }
        match self.nodes.get(number as usize - 1) {
            None => None,
            Some(node) => Some((node.item, node.below)),
        }
    }

    /// Whether a list has no items.
    pub fn is_empty(&self, number: u32) -> bool
        ensures empty { IsTrue result ↔ (read self.now number ≡ []) }
    {
        match self.pop(number) {
            None => true,
            Some(_) => false,
        }
    }
}
