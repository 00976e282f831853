// What calls answer.

use super::side::Side;
use std::alloc::AllocError;
use thiserror::Error;

// The note of a read of RDR: whether its word was read before.
#[derive(Clone, Copy, PartialEq, Eq, Debug)]
pub enum ReadNote {
    Fresh = 1,
    Old = 2,
}

// The note of a write to TDR: whether it overwrote a word.
#[derive(Clone, Copy, PartialEq, Eq, Debug)]
pub enum WriteNote {
    Stored = 1,
    Replaced = 2,
}

// The answer of a read. Only a read of RDR has a note.
#[derive(Clone, Copy, PartialEq, Eq, Debug)]
pub struct ReadOut {
    pub byte: u8,
    pub note: Option<ReadNote>,
}

// What a receiver reports at the end of a frame, with the word of the frame.
#[derive(Clone, Copy, PartialEq, Eq, Debug)]
pub enum Report {
    Break,
    Passed(u8),
    Lost(u8),
    Kept(u8),
}

// A report of a sweep.
#[derive(Clone, Copy, PartialEq, Eq, Debug)]
pub struct Event {
    pub cycle: u32,
    pub side: Side,
    pub report: Report,
}

// Why chip or board refuse a call, by the numbers of the refusals.
#[derive(Clone, Copy, PartialEq, Eq, Debug, Error)]
pub enum Refusal {
    #[error("no register has this select")]
    NoSuchSelect = 1,
    #[error("there is nothing to read at this select")]
    NothingToRead = 2,
    #[error("the CR value has bit 7 set or rate code 15")]
    BadControl = 3,
    #[error("the FR value has bit 7 clear")]
    BadFormat = 4,
    #[error("a line holds a low level")]
    LineNotQuiet = 5,
    #[error("a sweep has 1 to 2048 cycles")]
    BadSweepLength = 6,
    #[error("a sweep needs room for two records in each cycle")]
    TooFewRecords = 7,
}

// Why a sweep does not run to its end.
#[derive(Debug, Drop, Error)]
pub enum SweepError {
    #[error(transparent)]
    Refused(#[from] Refusal),
    #[error(transparent)]
    OutOfMemory(#[from(alloc)] AllocError),
}
