// The lines of a script: a token for each command, which borrows the bytes of its line.
#![tactic(auto)]

pub mod token;
