//! The texts that are printed and read: decimal numbers, escaped and quoted text, values, the lines
//! of a text and the names of scripts.
//!
//! Each call that puts text appends exactly the text that `specs/` defines, and after `NoMemory`
//! has appended nothing. `read_text` and `read_quoted` are the inverses of `put_text` and
//! `put_quoted`: each list of bytes has one such text, and whatever else there is is refused.
//! [`Lines`] reads a text line by line; every text of lines is read by it. The rules are told in
//! docs/TEXTS.md.
#![tactic(auto)]

pub mod cuts;
pub mod escape;
pub mod line;
pub mod lines;
pub mod name;
pub mod number;
pub mod value;

pub use cuts::cut;
pub use escape::{escapes_apart, put_quoted, put_text, read_quoted, read_text};
pub use line::line_of;
pub use lines::{Line, Lines};
pub use name::is_script_name;
pub use number::{put_count, put_number, read_number};
pub use value::{put_arguments, put_effect, put_object, put_value};
