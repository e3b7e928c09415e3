//! The agenda of delayed work: what is to run later, and when.
//!
//! Contracts see an [`Agenda`] as what waits and the spare room (`specs/Waiting.antt`). What waits
//! is the list of the entries in the order in which they are taken (the earliest due time first,
//! and at one due time the least number, so the entry that was posted first), and the number of the
//! next post. The spare room says how many entries can be posted without memory.
//!
//! An entry that is taken behind all that stand in the line stands there too, where it costs no
//! search. The others stand in queues by due time, an ordered map, so a call costs at most about
//! the logarithm of the number of due times. A post takes no memory: its entry goes to an inbox,
//! over which `take` and `next_due` look, and which `reserve` and `put` sort in.
//!
//! `docs/AGENDA.md` tells what is delayed, what each call leaves, and what it costs.
#![tactic(auto)]

mod agenda;
mod due_queue;
mod entry;
mod inbox;
mod indexed;
mod laws;
mod line;
mod queue;
mod queues;
mod sorted;
mod turn_index;

pub use agenda::Agenda;
pub use entry::{Entry, Kind};
pub use laws::{calls_keep_order, entries_tell, turns_are_counted};
