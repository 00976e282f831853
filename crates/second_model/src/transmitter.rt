// The transmitter: a frame is a list of levels, each with the tick at which it begins.

use super::format::Layout;
use arrayvec::ArrayVec;

// Ticks of a bit.
const BIT: u16 = 16;

// A level and the tick of the frame at which it begins.
#[derive(Clone, Copy, PartialEq, Eq, Debug, Default)]
struct TimedLevel {
    begin: u16,
    level: bool,
}

// What a transmitter does. It stands beside the transmitter, since a caller may keep it over the next call.
#[derive(Clone, Copy, PartialEq, Eq, Debug)]
pub enum Doing {
    Rests,
    Sends,
    Breaks,
}

// A frame that is sent, with the tick at which it ends, and the tick and the level that it has reached.
#[derive(Drop)]
pub struct Frame {
    levels: ArrayVec<TimedLevel, 12>,
    end: u16,
    tick: u16,
    level: bool,
}

// The transmitter of a channel, by what it does.
#[derive(Drop)]
pub enum Transmitter {
    Rests,
    Sends(Frame),
    Breaks { tick: u16, end: u16 },
}

// What a transmitter could do next.
#[derive(Clone, Copy, PartialEq, Eq, Debug)]
pub struct Work {
    pub break_wanted: bool,
    pub word: Option<u8>,
    pub layout: Layout,
}

impl Frame {
    // The levels of a word: start, data from the lowest bit, parity, stops.
    fn new(word: u8, layout: Layout) -> Frame {
        let mut frame = Frame {
            levels: ArrayVec::new(),
            end: 0,
            tick: 0,
            level: false,
        };
        frame.push(false);
        for bit in 0..layout.data_bits {
            frame.push(word >> bit & 1 == 1);
        }
        if let Some(rule) = layout.parity {
            frame.push(rule.bit_for(layout.cut(word)));
        }
        for _ in 0..layout.stop_bits {
            frame.push(true);
        }
        frame
    }

    // Adds a level at the end. There is room: a frame has 12 at most.
    fn push(&mut self, level: bool) {
        let begin = self.end;
        let _ = self.levels.try_push(TimedLevel { begin, level });
        self.end = self.end.saturating_add(BIT);
    }

    // One tick. It answers whether the frame is done.
    fn tick(&mut self) -> bool {
        let tick = self.tick.saturating_add(1);
        self.tick = tick;
        if let Some(bit) = self.levels.get(usize::from(tick / BIT)) {
            if bit.begin == tick {
                self.level = bit.level;
            }
        }
        tick >= self.end
    }
}

impl Transmitter {
    // The level of TxD.
    pub(crate) fn txd(&self) -> bool {
        match self {
            Transmitter::Rests => true,
            Transmitter::Sends(frame) => frame.level,
            Transmitter::Breaks { .. } => false,
        }
    }

    // What it does.
    pub(crate) fn doing(&self) -> Doing {
        match self {
            Transmitter::Rests => Doing::Rests,
            Transmitter::Sends(_) => Doing::Sends,
            Transmitter::Breaks { .. } => Doing::Breaks,
        }
    }

    // One tick. It answers whether the word was taken.
    pub(crate) fn tick(&mut self, work: Work) -> bool {
        match self {
            // most ticks are those of a rest that goes on
            Transmitter::Rests if !work.break_wanted && work.word.is_none() => false,
            Transmitter::Rests => self.choose(work),
            Transmitter::Sends(frame) => frame.tick() && self.choose(work),
            Transmitter::Breaks { tick, end } => {
                *tick = tick.saturating_add(1).min(*end);
                if *tick == *end && !work.break_wanted {
                    *self = Transmitter::Rests;
                }
                false
            }
        }
    }

    // Begins a break, a frame or a rest. It answers whether the word was taken.
    fn choose(&mut self, work: Work) -> bool {
        *self = match work.word {
            _ if work.break_wanted => Transmitter::Breaks {
                tick: 0,
                end: BIT * u16::from(work.layout.bits()),
            },
            Some(word) => Transmitter::Sends(Frame::new(word, work.layout)),
            None => Transmitter::Rests,
        };
        matches!(self, Transmitter::Sends(_))
    }
}
