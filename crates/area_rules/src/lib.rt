//! What an area is, as definitions and laws.
//!
//! `specs/Objects.antt` says which objects a tree tells, with their tags, scripts and local
//! variables, and `specs/Broken.antt` at which places a tree breaks the rules of an area, so that
//! its fault names the first of them. `specs/Area.antt` has the area itself, the tree that was read
//! beside what its objects are now: objects by number and by tag, the change of one, and what every
//! area keeps. Code that reads trees and changes areas stands in the crates above. docs/AREA.md
//! tells the rules and this project's choices.
#![tactic(auto)]

mod fault;
mod laws;

pub use fault::AreaFault;
pub use laws::objects_tell;
