//! An area that is read from a GFF tree, and whose objects' variables change.
//!
//! [`Area::of`] reads the objects that a tree tells, or names the first place at which it breaks
//! the rules. Objects are numbered from 1; they are found by their tags, and their variables are
//! read and changed. What the tree holds besides stays as it was read, and [`Area::into_parts`]
//! gives it back beside the objects.
//!
//! What an area is stands in `area_rules`; contracts see an [`Area`] as the tree that was read
//! beside the list of the objects. `specs/Reading.antt` says what calls that read answer, and
//! `specs/Index.antt` what the index of tags keeps. docs/AREA.md tells the rules and this project's
//! choices.
#![tactic(auto)]

mod area;
mod object;
mod scripts;
mod tags;

pub use area::Area;
pub use object::{Object, Told, list_label, told_by};
