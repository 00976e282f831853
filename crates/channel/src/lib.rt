// One channel of the R65C52: its registers, flags, transmitter, receiver and interrupts.
#![tactic(auto)]

pub mod bits;
pub mod channel;
pub mod control;
pub mod interrupts;
pub mod modem;
pub mod receiving;
pub mod sender;
