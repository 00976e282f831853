// The words of a script, by their places: commands, faults, and the bytes that they are read from.
// The format is defined in specs/Format.antt.
#![tactic(auto)]

pub mod command;
pub mod fault;
pub mod position;
pub mod refusal;
pub mod word;
