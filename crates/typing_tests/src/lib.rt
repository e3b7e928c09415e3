//! Tests of typing: small units, each with its least fault or none.
#![tactic(auto)]

#[cfg(test)]
mod headers;
#[cfg(test)]
mod kinds;
#[cfg(test)]
mod limits;
#[cfg(test)]
mod orders;
#[cfg(test)]
mod units;
