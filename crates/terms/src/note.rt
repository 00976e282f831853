// What a read or a write says of itself besides the byte.
ghost use Rattle.std.specs.Prelude.{◌≡◌};
ghost use Rattle.terms.specs.Note.{read_note_number, write_note_number};

use std::fmt;

// The note of a read of RDR.
#[derive(Clone, Copy, PartialEq, Eq, Debug)]
pub enum ReadNote {
    Fresh = 1,
    Old = 2,
}

impl ReadNote {
    pub fn number(self) -> u8
        ensures { result ≡ read_note_number self }
    {
        self as u8
    }
}

impl fmt::Display for ReadNote {
    fn fmt<W: fmt::Write>(&self, f: &mut fmt::Formatter<W>) -> fmt::Result {
        f.write_str(match self {
            ReadNote::Fresh => "fresh",
            ReadNote::Old => "old",
        })
    }
}

// The note of a write to TDR.
#[derive(Clone, Copy, PartialEq, Eq, Debug)]
pub enum WriteNote {
    Stored = 1,
    Replaced = 2,
}

impl WriteNote {
    pub fn number(self) -> u8
        ensures { result ≡ write_note_number self }
    {
        self as u8
    }
}

impl fmt::Display for WriteNote {
    fn fmt<W: fmt::Write>(&self, f: &mut fmt::Formatter<W>) -> fmt::Result {
        f.write_str(match self {
            WriteNote::Stored => "stored",
            WriteNote::Replaced => "replaced",
        })
    }
}

// What a read answers; only a read of RDR has a note.
#[derive(Clone, Copy, PartialEq, Eq, Debug)]
pub struct Reading {
    pub byte: u8,
    pub note: Option<ReadNote>,
}
