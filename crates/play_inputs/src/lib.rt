//! What a play begins with and leaves: the plan and the scripts that it lists, the area of a GFF
//! file, and the file of the final area.
//!
//! Each is a part of the work of a command (`specs/Areas.antt`, `specs/Plans.antt`,
//! `specs/Listings.antt`, `specs/Finals.antt`). A file that is no area or no plan is refused here,
//! at its first broken place or its first bad line; so is an area whose file would be too large.
//! Scripts are taken in the plan's order: a source is compiled and its file written at once, a
//! binary's file is read, and the code of each is checked under the header. What is listed can be
//! played: its tables of shapes meet the rules. See docs/PLAN.md, docs/AREA.md and
//! docs/REFUSALS.md.
#![tactic(auto)]

mod area;
mod code;
mod final_file;
pub mod laws;
mod listing;
mod plan;

pub use area::{area_of_bytes, read_area};
pub use final_file::write_area;
pub use listing::list_scripts;
pub use plan::read_plan_file;
