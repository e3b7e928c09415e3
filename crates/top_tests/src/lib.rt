//! Tests of the top call: its parts, its commands but plays of plans by rows of words and files,
//! and the whole program over memory. Plays of plans stand in `game_tests`.
#![tactic(auto)]

#[cfg(test)]
mod areas;
#[cfg(test)]
mod chains;
#[cfg(test)]
mod cuts;
#[cfg(test)]
mod disk;
#[cfg(test)]
mod files;
#[cfg(test)]
mod language;
#[cfg(test)]
mod parts;
#[cfg(test)]
mod profile;
#[cfg(test)]
mod programs;
#[cfg(test)]
mod reads;
#[cfg(test)]
mod refusing;
#[cfg(test)]
mod scripts;
#[cfg(test)]
mod tables;
#[cfg(test)]
mod trials;
#[cfg(test)]
mod words;
