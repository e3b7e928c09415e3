//! The form of messages for builders: the line and the column of a place in a text, and the line
//! itself with a caret under the place.
//!
//! A column counts characters from 1, as `specs/Place.antt` says: of a line that is UTF-8 up to the
//! place, its characters, and else its bytes. A line is shown as `specs/Shown.antt` says: tabs
//! stay, bytes that are no text are escaped, and those of a line in which a character stands that a
//! terminal obeys; what stands under each byte is as wide as it, and a long line is cut around the
//! place. The page on messages is docs/MESSAGES.md.
#![tactic(auto)]

pub mod place;
pub mod readable;
pub mod shown;
pub mod window;

pub use place::{column, line_end, line_start};
pub use readable::is_readable;
pub use shown::put_place;
