//! Tests of the top call by plays of plans: rows of words and files, and plays that are saved and
//! resumed.
#![tactic(auto)]

#[cfg(test)]
mod cuts;
#[cfg(test)]
mod example;
#[cfg(test)]
mod games;
#[cfg(test)]
mod long;
#[cfg(test)]
mod plans;
#[cfg(test)]
mod saves;
#[cfg(test)]
mod states;
#[cfg(test)]
mod trials;
