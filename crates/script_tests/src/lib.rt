//! Tests of the front end: tokens, units, grammar, trees, engine headers.
#![tactic(auto)]

#[cfg(test)]
mod headers;
#[cfg(test)]
mod parsing;
#[cfg(test)]
mod tokens;
#[cfg(test)]
mod units;
