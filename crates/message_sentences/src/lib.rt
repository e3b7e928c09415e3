//! What messages are made of: the parts of their form, and their sentences.
//!
//! The sentences stand as data: in `sentences.rt` those for causes of refusal in source texts, in
//! `flaws.rt` those for files that are no source texts, in `system.rt` those on what the system or
//! memory refused, in `forms.rt` the forms of the words, with the version. `told.rt` takes apart
//! the last line on standard output, and `form.rt` puts a message together. Which sentence comes no
//! clause says. The page on messages is docs/MESSAGES.md.
#![tactic(auto)]

mod flaws;
mod form;
mod forms;
mod sentences;
mod system;
mod told;

pub use flaws::{kind_of, line_in, place_of_line, put_flaw};
pub use form::{
    put_end, put_head, put_kind, put_name, put_note, put_note_at, put_plain, put_sentence,
    put_whole, put_words,
};
pub use forms::{VERSION, put_no_text, put_usage};
pub use sentences::{bad_sentence, end_sentence, sentence_of};
pub use system::{Budget, put_fault, put_memory};
pub use told::{Told, first_word, same, second_word, told_by};
