//! Tests of messages: their form, the tokens that they list, whole messages over memory, and the
//! files that they are made of.
#![tactic(auto)]

#[cfg(test)]
mod ends;
#[cfg(test)]
mod forms;
#[cfg(test)]
mod kept;
#[cfg(test)]
mod lines;
#[cfg(test)]
mod listed;
#[cfg(test)]
mod long;
#[cfg(test)]
mod messages;
#[cfg(test)]
mod notes;
#[cfg(test)]
mod remarks;
#[cfg(test)]
mod rows;
