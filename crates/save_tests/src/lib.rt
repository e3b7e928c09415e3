//! Tests of saved plays: broken states, states with a byte changed, and plays that go on.
#![tactic(auto)]

#[cfg(test)]
mod bases;
#[cfg(test)]
mod broken;
#[cfg(test)]
mod built;
#[cfg(test)]
mod change;
#[cfg(test)]
mod changed;
#[cfg(test)]
mod example;
#[cfg(test)]
mod going;
#[cfg(test)]
mod hooked;
#[cfg(test)]
mod layout;
#[cfg(test)]
mod noon;
#[cfg(test)]
mod sketch;
