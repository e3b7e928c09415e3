//! A list whose items stand under rising stamps, each in a slot of its own.
//!
//! Contracts see a [`Stamped`] as its items under their stamps, how many slots there are, and for
//! how many there is memory (`specs/Stamps.antt`). An item is found, put and taken out where it is if
//! no stamp was left out, or by a binary search for its stamp. What is taken out leaves its slot
//! empty, so that no other is moved; where half of the slots are empty they go, and their memory with
//! them. The first slot never is empty.
//!
//! The entries of one due time, the places of Turns, and the effects and variables of an object are
//! kept so. A [`StampIndex`] leads from a key to the stamps under it.
#![tactic(auto)]

mod slots;
mod stamp_index;
mod stamped;
mod walk;

pub use stamp_index::StampIndex;
pub use stamped::Stamped;
pub use walk::Walk;
