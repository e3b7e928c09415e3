//! Tests of the play that is made from a number.
#![tactic(auto)]

#[cfg(test)]
mod made;
