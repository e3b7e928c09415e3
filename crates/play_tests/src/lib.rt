//! Tests of what a play stands on: shapes, stack, captured states, stamped slots, queues, agenda,
//! saved plays.
#![tactic(auto)]

#[cfg(test)]
mod agenda;
#[cfg(test)]
mod laws;
#[cfg(test)]
mod queues;
#[cfg(test)]
mod saves;
#[cfg(test)]
mod shapes;
#[cfg(test)]
mod slots;
#[cfg(test)]
mod states;
