// A receiver: it hunts for a start bit, gathers the bits of a frame, or waits for the line to go high.
ghost use Rattle.std.specs.Prelude.{◌≡◌, ◌+◌, ◌<◌, Bool};
ghost use Rattle.serial.specs.Receiver.{new_gathering, grown, word_of, parity_of, received, counted, gathered, heard};

use crate::format::{Format, bit_at};

// A frame under way: the format that it began with, the ticks since then, and the bits that were gathered.
// The definitions take the three one by one, as the word, the parity bit and the end of a frame are those of any count.
#[derive(Clone, Copy)]
pub struct Gathering {
    pub format: Format,
    pub count: u8,
    pub bits: u16,
}

#[derive(Clone, Copy)]
pub enum Receiver {
    Hunting,
    Gathering(Gathering),
    Waiting,
}

// A frame that has ended: its word, its parity bit and whether that is wrong, its stop bit, and whether all its bits were low.
// Without parity both flags are false and no `Option`: PAR is then 0 whichever of the two it shows, with no case of its own.
#[derive(Clone, Copy)]
pub struct Received {
    pub word: u8,
    pub parity: bool,
    pub wrong: bool,
    pub stop: bool,
    pub low: bool,
}

impl Gathering {
    // Before the first bit.
    fn new(format: Format) -> Gathering
        ensures { result ≡ new_gathering format }
    {
        Gathering {
            format,
            count: 0,
            bits: 0,
        }
    }

    // With one bit more, at the place `k`.
    fn with_bit(self, level: bool, k: u8) -> Gathering
        requires { k < 16 }
        ensures { result ≡ grown level k self }
    {
        Gathering {
            bits: self.bits | u16::from(level) << k,
            ..self
        }
    }

    fn word(self) -> u8
        ensures { result ≡ word_of self.format self.bits }
    {
        self.format.cut(self.bits >> 1)
    }

    // The parity bit, 0 where the format has none.
    fn parity(self) -> u8
        ensures { result ≡ parity_of self.format self.bits }
    {
        let place = 1 + self.format.bits.count();
        self.format.parity.map_or(0, |_| bit_at(self.bits, place))
    }

    // What all the bits of a frame say.
    fn received(self, stop: bool) -> Received
        ensures { result ≡ received self.format self.bits stop }
    {
        let word = self.word();
        let parity = self.parity();
        Received {
            word,
            parity: parity == 1,
            wrong: parity != self.format.check_bit(word),
            stop,
            low: self.bits == 0,
        }
    }
}

impl Receiver {
    // One count more of a frame under way.
    fn gather(&mut self, frame: Gathering, level: bool) -> Option<Received>
        ensures { (result, self.new) ≡ gathered frame.format (frame.count + 1) frame.bits level }
    {
        let stop_at = frame.format.stop_at();
        if u16::from(frame.count) + 1 < 16 * u16::from(stop_at) + 8 {
            self.sample(
                Gathering {
                    count: frame.count + 1,
                    ..frame
                },
                level,
            );
            None
        } else {
            *self = if level {
                Receiver::Hunting
            } else {
                Receiver::Waiting
            };
            Some(frame.with_bit(level, stop_at).received(level))
        }
    }

    // A count before the first stop bit: in the middle of a bit its level is taken.
    fn sample(&mut self, frame: Gathering, level: bool)
        ensures { self.new ≡ counted frame.format frame.count frame.bits level }
    {
        *self = if frame.count % 16 != 8 {
            Receiver::Gathering(frame)
        } else if frame.count == 8 && level {
            Receiver::Hunting
        } else {
            Receiver::Gathering(frame.with_bit(level, frame.count / 16))
        };
    }

    // One tick, with the format now set and the level of the line; answers the frame that ends here.
    pub fn tick(&mut self, format: Format, level: bool) -> Option<Received>
        ensures { (result, self.new) ≡ heard format level self.old }
    {
        match *self {
            Receiver::Hunting => {
                if !level {
                    *self = Receiver::Gathering(Gathering::new(format));
                }
                None
            }
            Receiver::Gathering(frame) => self.gather(frame, level),
            Receiver::Waiting => {
                if level {
                    *self = Receiver::Hunting;
                }
                None
            }
        }
    }
}
