//! Tests of GFF files and what is read of them.
#![tactic(auto)]

#[cfg(test)]
mod areas;
#[cfg(test)]
mod files;
#[cfg(test)]
mod many;
#[cfg(test)]
mod texts;
#[cfg(test)]
mod trees;
#[cfg(test)]
mod views;
#[cfg(test)]
mod writing;
