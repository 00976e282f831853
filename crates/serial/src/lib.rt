// The moving parts of one UART, and nothing of any chip: formats and frames, a transmitter and a receiver that take ticks.
#![tactic(auto)]

pub mod format;
pub mod parity;
pub mod receiver;
pub mod transmitter;
