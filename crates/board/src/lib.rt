// A board that cables channel 1 of a chip to its channel 2 over any two lines.
#![tactic(auto)]

pub mod board;
pub mod record;
