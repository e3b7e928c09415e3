//! The labels of a switch so far.

ghost use Rattle.std.specs.Prelude.{◌≡◌, ◌++◌, ◌∷◌, [], true, OnErr, OnOk};
ghost use Rattle.typing_rules.specs.Sight.{no_labels, with_declaration, with_default};
ghost use Rattle.typing_rules.specs.Rules.{is_among_ints};
ghost use Rattle.nss_scopes.specs.Cases.{HasCases};

use nwq_value::NoMemory;
use std::alloc::Global;
use std::collections::HashSet;
use std::marker::Model;

/// The labels that stood directly in a switch, and whether a declaration did. Contracts see the
/// record of them.
#[derive(Drop)]
pub struct Labels {
    cases: Vec<i32>,
    seen: HashSet<i32>,
    has_default: bool,
    is_late: bool,
}

impl Model for Labels {
    ghost use Rattle.typing_rules.specs.Sight.{Labels as Seen};
    ghost use Rattle.nss_scopes.specs.Cases.{HasCases, labels_of};

    ghost Value = { Seen };

    ghost view = { λ l. labels_of l.cases.items l.has_default l.is_late };

    ghost invariant = { λ l. HasCases l.cases.items l.seen.keys };
}

/// Puts a value last. With room for it nothing is to be undone.
fn push(cases: &mut Vec<i32>, seen: &mut HashSet<i32>, value: i32) -> Result<(), NoMemory>
    requires kept { HasCases cases.old.items seen.old.keys }
    ensures ok { OnOk result (cases.new.items ≡ cases.old.items ++ value ∷ []) }
    ensures err { OnErr result (cases.new.items ≡ cases.old.items) }
    ensures kept { HasCases cases.new.items seen.new.keys }
{
    cases.reserve(1)?;
    seen.insert(value)?;
    cases.push(value)?;
    Ok(())
}

impl Labels {
    /// None so far.
    pub fn new(alloc: Global) -> Labels
        ensures none { result ≡ no_labels }
    {
        Labels {
            cases: Vec::new(alloc),
            seen: HashSet::new(alloc),
            has_default: false,
            is_late: false,
        }
    }

    /// Whether a case of this value stood before.
    pub fn has_case(&self, value: i32) -> bool
        ensures has { result ≡ is_among_ints value self.now.cases }
    {
        self.seen.contains(&value)
    }

    /// Whether `default` stood before.
    pub fn has_default(&self) -> bool
        ensures has { result ≡ self.now.has_default }
    {
        self.has_default
    }

    /// Whether a declaration stood before.
    pub fn is_late(&self) -> bool
        ensures late { result ≡ self.now.is_late }
    {
        self.is_late
    }

    /// A case of this value stands here. After `NoMemory` the labels are as before.
    pub fn add_case(&mut self, value: i32) -> Result<(), NoMemory>
        ensures ok { OnOk result
            (self.new ≡ record self.old { cases = self.old.cases ++ value ∷ [] }) }
        ensures err { OnErr result (self.new ≡ self.old) }
    {
        push(&mut self.cases, &mut self.seen, value)
    }

    /// `default` stands here.
    pub fn add_default(&mut self)
        ensures seen { self.new ≡ with_default self.old }
    {
        self.has_default = true;
    }

    /// A declaration stands here.
    pub fn add_declaration(&mut self)
        ensures seen { self.new ≡ with_declaration self.old }
    {
        self.is_late = true;
    }
}
