//! Tests of the stack checker, over small files in the assembler's text.
#![tactic(auto)]

#[cfg(test)]
mod entries;
#[cfg(test)]
mod files;
#[cfg(test)]
mod fits;
#[cfg(test)]
mod instructions;
#[cfg(test)]
mod passed;
#[cfg(test)]
mod reasons;
#[cfg(test)]
mod unstacked;
#[cfg(test)]
mod windows;
