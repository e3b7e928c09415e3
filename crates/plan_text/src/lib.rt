//! Plans: texts that list limits, random numbers, scripts, and the events and starts of a play.
//!
//! [`read_plan`] reads a plan, or answers the number of the first line that has no reading. What
//! lines say and what a text of lines gives stands in `specs/Plans.antt`. See docs/PLAN.md.
#![tactic(auto)]

mod draft;
pub mod fault;
mod fields;
pub mod laws;
pub mod plan;
mod planned;
mod reader;
mod words;

pub use fault::PlanFault;
pub use plan::{Line, Listed, Plan, Planned, Script};
pub use reader::read_plan;
