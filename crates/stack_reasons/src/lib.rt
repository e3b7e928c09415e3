//! Why a file of NCS code is not well stacked.
//!
//! The checker (`stack_check`) says that no table of shapes meets the rules. [`find_reason`] looks
//! for a run over shapes that shows it: from the script's start step by step, both ways at a jump
//! that looks at a cell, into a called routine and back, until an instruction finds other cells
//! than it needs, or the same run of a routine comes to one place with different cells. A
//! [`Reason`] says where, and what is there. `specs/Ways.antt` says what a run over shapes is,
//! `specs/Reasons.antt` what a reason is, and [`reasons_refute`] that no table meets the rules
//! where there is one. The page is docs/SHAPES.md.
#![tactic(auto)]

mod find;
mod home;
mod laws;
mod leads;
mod means;
mod reason;
mod shapes;
mod trail;
mod visit;
mod walk;

pub use find::find_reason;
pub use laws::reasons_refute;
pub use reason::{Reason, Trouble};
pub use shapes::first_difference;
