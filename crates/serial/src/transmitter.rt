// A transmitter: it rests, sends a frame or a break, and moves on at each tick.
ghost use Rattle.std.specs.Prelude.{◌≡◌, ◌/◌, Bool};
ghost use Rattle.serial.specs.Frame.{bit};
ghost use Rattle.serial.specs.Transmitter.{begun, ticked, level, resting};

use crate::format::{Format, bit_at};

#[derive(Clone, Copy)]
pub enum Transmitter {
    Resting,
    Sending {
        format: Format,
        frame: u16,
        count: u8,
    },
    Breaking {
        format: Format,
        count: u8,
    },
}

// What decides over a tick besides the transmitter's own state: the format now set, whether a break is wanted, and the level of CTS.
// The definitions take the three one by one, as a link without breaks has only two of them.
#[derive(Clone, Copy)]
pub struct Setting {
    pub format: Format,
    pub break_on: bool,
    pub cts: bool,
}

// The level of a frame after that many ticks: 16 to a bit.
fn level_at(frame: u16, count: u8) -> bool
    ensures { result ≡ bit frame (count / 16) }
{
    bit_at(frame, count / 16) == 1
}

impl Transmitter {
    // The level that it gives.
    pub fn level(&self) -> bool
        ensures { result ≡ level self.now }
    {
        match *self {
            Transmitter::Resting => true,
            Transmitter::Sending { frame, count, .. } => level_at(frame, count),
            Transmitter::Breaking { .. } => false,
        }
    }

    pub fn is_resting(&self) -> bool
        ensures { result ≡ resting self.now }
    {
        matches!(self, Transmitter::Resting)
    }

    // What comes after rest or a frame; true where it takes the word.
    fn begin(&mut self, set: Setting, tdr: Option<u8>) -> bool
        ensures { (result, self.new) ≡ begun set.format set.break_on set.cts tdr }
    {
        let format = set.format;
        if set.break_on {
            *self = Transmitter::Breaking { format, count: 0 };
            return false;
        }
        match tdr {
            Some(word) if !set.cts => {
                *self = Transmitter::Sending {
                    format,
                    frame: format.frame(word),
                    count: 0,
                };
                true
            }
            _ => {
                *self = Transmitter::Resting;
                false
            }
        }
    }

    // One tick, with the word that waits; true where it takes that word.
    pub fn tick(&mut self, set: Setting, tdr: Option<u8>) -> bool
        ensures { (result, self.new) ≡ ticked set.format set.break_on set.cts tdr self.old }
    {
        match self {
            Transmitter::Resting => self.begin(set, tdr),
            Transmitter::Sending {
                format: own,
                count,
                ..
            } => {
                if u16::from(*count) + 1 < u16::from(own.frame_ticks()) {
                    *count += 1;
                    false
                } else {
                    self.begin(set, tdr)
                }
            }
            Transmitter::Breaking { format: own, count } => {
                let end = own.frame_ticks();
                if u16::from(*count) + 1 < u16::from(end) {
                    *count += 1;
                } else if set.break_on {
                    *count = end;
                } else {
                    *self = Transmitter::Resting;
                }
                false
            }
        }
    }
}
