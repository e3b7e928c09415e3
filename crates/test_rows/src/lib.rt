//! What the crates of tests share that go through rows of words: files, a sink and hooks over
//! memory, and what is to come of words, row by row.
//!
//! A row says what words do ([`answers::Row`]): the names that they are over, by a base of names
//! that many rows share ([`bases::Base`]), their status, what is put, and what names hold after.
//! [`rows::Table`] has rows that are alike written shorter, and [`hooked::first_other`] makes the
//! hooks with which they are tried. No program stands on this crate.
#![tactic(auto)]

pub mod answers;
pub mod bases;
pub mod contents;
pub mod hooked;
pub mod rows;
pub mod samples;
pub mod town;
