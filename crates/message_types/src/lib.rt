//! What messages say of types and of arguments.
//!
//! [`put_why`] finds the reason for which the rules of types refuse a unit at a token
//! ([`nss_reasons::explain`]), and appends its sentence, as `specs/Sentences.antt` has it. The page
//! on messages is docs/MESSAGES.md.
#![tactic(auto)]

mod sentences;
#[tactic(auto, using(crate::proofs::Telling::tells, crate::proofs::Telling::tells_none))]
mod why;

pub use sentences::put_reason;
pub use why::put_why;
