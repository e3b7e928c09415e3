//! Tests of the reasons of faults of typing: scripts that are made from numbers, of which each has
//! one place whose types are drawn, and what is told of it.
#![tactic(auto)]

#[cfg(test)]
mod drawn;
#[cfg(test)]
mod scripts;
