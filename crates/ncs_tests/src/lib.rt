//! Tests of NCS bytecode: instructions, whole files, labelled code, assembler texts.
#![tactic(auto)]

#[cfg(test)]
mod assembly;
#[cfg(test)]
mod emitting;
#[cfg(test)]
mod instructions;
#[cfg(test)]
mod whole_files;
