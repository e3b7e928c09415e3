//! The remarks of a play, of which the first few are kept.
ghost use Rattle.std.specs.Prelude.{◌≡◌, ◌<◌, ◌↔◌, ◌++◌, ◌∷◌, [], length, take, IsTrue, OnOk, OnErr};
ghost use Rattle.play_remarks.specs.Kept.{most_remarks};

use crate::Remark;
use nwq_value::NoMemory;
use std::alloc::Global;
use std::marker::Model;

/// How many remarks are kept: those of which notes are made, and one more, by which it is known
/// that there are others.
const MOST_REMARKS: usize = 17;

/// The first remarks of a play, in order.
pub struct RemarkList {
    remarks: Vec<Remark>,
}

impl Model for RemarkList {
    ghost use Rattle.std.specs.Prelude.{◌≤◌, List, length};
    ghost use Rattle.play_remarks.specs.declared.Remark.{Remark};
    ghost use Rattle.play_remarks.specs.Kept.{most_remarks};

    ghost Value = { List Remark };

    ghost view = { λ l. l.remarks.items };

    ghost invariant = { λ l. length l.remarks.items ≤ most_remarks };
}

impl Drop for RemarkList {
    fn drop(self) {
        let RemarkList { remarks } = self;
        drop(remarks);
    }
}

impl RemarkList {
    /// Nothing is remarked yet.
    pub fn new(alloc: Global) -> RemarkList
        ensures none { result ≡ [] }
    {
        RemarkList {
            remarks: Vec::new(alloc),
        }
    }

    /// Whether one more is kept.
    pub fn has_room(&self) -> bool
        ensures room { IsTrue result ↔ length self.now < most_remarks }
    {
        self.remarks.len() < MOST_REMARKS
    }

    /// Puts a remark last, unless as many as are kept are there. For want of memory it is left out.
    #[tactic(auto, using(crate::proofs::KeptLemmas::kept_lemmas))]
    pub fn keep(&mut self, remark: Remark) -> Result<(), NoMemory>
        ensures kept { OnOk result (self.new ≡ take most_remarks (self.old ++ remark ∷ [])) }
        ensures left_out { OnErr result (self.new ≡ self.old) }
    {
        if self.remarks.len() < MOST_REMARKS {
            self.remarks.push(remark)?;
        } else {
            drop(remark);
        }
        Ok(())
    }

    /// The remarks.
    pub fn as_slice(&self) -> &[Remark]
        ensures remarks { result.now ≡ self.now }
    {
        self.remarks.as_slice()
    }
}
