// The R65C52 DACIA: a chip of two channels, at power on and running, and accesses that are opened and ended.
#![tactic(auto)]

pub mod access;
pub mod chip;
