// A second model of the chip and of the board, and a second reader of scripts, written from
// `docs/CHIP.md`, `docs/BOARD.md` and `docs/SCRIPT.md` alone.
// It shares no code with the first model, and its public functions have no contracts: the program
// `trials` compares the two models. No program compares the two readers yet.
#![tactic(auto)]

mod bits;
mod board;
mod channel;
mod chip;
mod clock;
mod delay;
mod format;
mod inputs;
mod outcome;
mod receiver;
mod registers;
mod script;
mod side;
mod sources;
mod transmitter;
mod words;

pub use board::Board;
pub use channel::View;
pub use chip::{Access, Answer, Chip, Pins};
pub use clock::Ticks;
pub use delay::Delay;
pub use inputs::Input;
pub use outcome::{Event, ReadNote, ReadOut, Refusal, Report, SweepError, WriteNote};
pub use receiver::Hearing;
pub use script::{Fault, Misfit, Order, ScriptError, ScriptLine, ScriptPlace, read_text};
pub use side::{Both, Side};
pub use sources::Sources;
pub use transmitter::Doing;
pub use words::ErrorFlags;
