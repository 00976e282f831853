// The received word and its flags: what the end of a frame does to them.

use super::outcome::Report;
use super::receiver::Heard;

// PAR, FE, OVR and BRK. At first they are clear.
#[derive(Clone, Copy, PartialEq, Eq, Debug, Default)]
pub struct ErrorFlags {
    pub parity: bool,
    pub framing: bool,
    pub overrun: bool,
    pub broken: bool,
}

// RDR with its flags, and the compare register. RDR keeps its word when that is read, so that RDRF is a flag beside it.
// CDR matters only during sleep, so that it is the word that ends the sleep, or none.
#[derive(Drop)]
pub struct Inbox {
    pub word: u8,
    pub full: bool,
    pub errors: ErrorFlags,
    pub wakes_at: Option<u8>,
}

impl ErrorFlags {
    // F/O/B.
    pub(crate) fn faulty(self) -> bool {
        self.framing || self.overrun || self.broken
    }
}

impl Inbox {
    // The inbox at power on: RDRF is set.
    pub(crate) fn new() -> Inbox {
        Inbox {
            word: 0,
            full: true,
            errors: ErrorFlags::default(),
            wakes_at: None,
        }
    }

    // The end of a frame.
    pub(crate) fn end_frame(&mut self, heard: Heard, show_parity_bit: bool) -> Report {
        let word = heard.word;
        if !heard.any_high {
            self.errors.broken = true;
            return Report::Break;
        }
        if let Some(compare) = self.wakes_at {
            if word == compare {
                self.wakes_at = None;
            }
            return Report::Passed(word);
        }
        if self.full {
            self.errors.overrun = true;
            return Report::Lost(word);
        }
        self.word = word;
        self.full = true;
        self.errors.framing = !heard.stop;
        self.errors.parity = match heard.parity {
            None => false,
            Some(parity) if show_parity_bit => parity.bit,
            Some(parity) => parity.wrong,
        };
        Report::Kept(word)
    }
}
