//! Tests of the code of units: whole files against listings that were written by hand, and the
//! scripts of docs/LANGUAGE.md against those that it shows.
#![tactic(auto)]

#[cfg(test)]
mod compile;
#[cfg(test)]
mod declarations;
#[cfg(test)]
mod expressions;
#[cfg(test)]
mod headers;
#[cfg(test)]
mod language;
#[cfg(test)]
mod statements;
