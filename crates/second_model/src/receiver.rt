// The receiver: it collects the levels that it samples until the first stop bit.

use super::bits::number_of;
use super::format::Layout;
use arrayvec::ArrayVec;

// What a receiver does. It stands beside the state of the receiver, since a caller may keep it over the next call.
#[derive(Clone, Copy, PartialEq, Eq, Debug)]
pub enum Hearing {
    Hunts,
    Gathers,
    Waits,
}

// The state of a receiver, by what it does.
#[derive(Drop)]
enum State {
    Hunts,
    Gathers(Gathering),
    Waits,
}

// A frame under way: its layout, the levels before the stop bit so far, and the ticks up to the next sample.
#[derive(Drop)]
struct Gathering {
    layout: Layout,
    samples: ArrayVec<bool, 10>,
    to_sample: u8,
}

// A parity bit that was received.
#[derive(Clone, Copy, PartialEq, Eq, Debug)]
pub struct HeardParity {
    pub bit: bool,
    pub wrong: bool,
}

// A frame that was received up to its first stop bit.
#[derive(Clone, Copy, PartialEq, Eq, Debug)]
pub struct Heard {
    pub word: u8,
    pub parity: Option<HeardParity>,
    pub stop: bool,
    pub any_high: bool,
}

// The receiver of a channel.
#[derive(Drop)]
pub struct Receiver {
    state: State,
    false_starts: u32,
}

impl Gathering {
    // A frame that begins.
    fn new(layout: Layout) -> Gathering {
        Gathering {
            layout,
            samples: ArrayVec::new(),
            to_sample: 8,
        }
    }

    // Takes one sample, and answers the frame if it was the stop bit. The next one is due 16 ticks later.
    fn sample(&mut self, level: bool) -> Option<Heard> {
        if self.samples.len() >= usize::from(self.layout.bits_before_stop()) {
            return Some(self.heard(level));
        }
        self.samples.push(level);
        self.to_sample = 16;
        None
    }

    // Puts the samples together.
    fn heard(&self, stop: bool) -> Heard {
        let after_data = usize::from(self.layout.data_bits) + 1;
        let word = number_of(self.samples.get(1..after_data).unwrap_or(&[]));
        let parity_bit = self.samples.get(after_data).copied();
        Heard {
            word,
            parity: self.layout.parity.zip(parity_bit).map(|(rule, bit)| HeardParity {
                bit,
                wrong: bit != rule.bit_for(word),
            }),
            stop,
            any_high: stop || self.samples.contains(&true),
        }
    }
}

impl Receiver {
    // A receiver that hunts.
    pub(crate) fn new() -> Receiver {
        Receiver {
            state: State::Hunts,
            false_starts: 0,
        }
    }

    // What it does.
    pub(crate) fn hearing(&self) -> Hearing {
        match self.state {
            State::Hunts => Hearing::Hunts,
            State::Gathers(_) => Hearing::Gathers,
            State::Waits => Hearing::Waits,
        }
    }

    // The layout of the frame under way, if there is one.
    pub(crate) fn layout(&self) -> Option<Layout> {
        match &self.state {
            State::Gathers(frame) => Some(frame.layout),
            State::Hunts | State::Waits => None,
        }
    }

    // How many start bits turned out to be none.
    pub(crate) fn false_starts(&self) -> u32 {
        self.false_starts
    }

    // One tick with the level of RxD and the layout that is set now.
    pub(crate) fn tick(&mut self, level: bool, layout: Layout) -> Option<Heard> {
        match &mut self.state {
            State::Hunts => {
                if !level {
                    self.state = State::Gathers(Gathering::new(layout));
                }
                None
            }
            State::Waits => {
                if level {
                    self.state = State::Hunts;
                }
                None
            }
            State::Gathers(frame) => {
                frame.to_sample = frame.to_sample.saturating_sub(1);
                if frame.to_sample > 0 {
                    return None;
                }
                if level && frame.samples.is_empty() {
                    self.false_starts = self.false_starts.wrapping_add(1);
                    self.state = State::Hunts;
                    return None;
                }
                let heard = frame.sample(level)?;
                self.state = if level { State::Hunts } else { State::Waits };
                Some(heard)
            }
        }
    }
}
