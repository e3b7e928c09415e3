//! Tests of the base crates: values, texts, files and sink, plans.
#![tactic(auto)]

#[cfg(test)]
mod files;
#[cfg(test)]
mod host;
#[cfg(test)]
mod lines;
#[cfg(test)]
mod plain;
#[cfg(test)]
mod plans;
#[cfg(test)]
mod readings;
#[cfg(test)]
mod real;
#[cfg(test)]
mod refusing;
#[cfg(test)]
mod sinks;
#[cfg(test)]
mod stories;
#[cfg(test)]
mod tables;
#[cfg(test)]
mod values;
#[cfg(test)]
mod written;
