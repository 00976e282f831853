// Makes random histories that reach the rare rules: it keeps in mind what it wrote to CR, FR and CDR, to send fitting frames.

use crate::call::{Call, Held, MarkedCycles, Signal, Stretch};
use crate::history::{Cable, Device, History, Kind};
use crate::random::Random;
use dacia::access::Place;
use std::alloc::{AllocError, Global};
use terms::channel_id::ChannelId;
use terms::channels::Channels;
use terms::modem_line::ModemLine;
use terms::register::Register;

// Cycles of a bit for each rate code; with code 15 all cycles are taken as marked.
const BIT_CYCLES: [u32; 16] = [
    73728, 33760, 27392, 24576, 12288, 6144, 3072, 2048, 1536, 1024, 768, 512, 384, 192, 96, 16,
];

// The longest run, and the longest of most runs.
const LONGEST: u32 = 9_300;

const USUAL: u32 = 1_600;

// What was last written to a channel.
#[derive(Clone, Copy, PartialEq, Eq, Debug, Default)]
struct Written {
    cr: u8,
    fr: u8,
    cdr: u8,
}

// Bits in a row, from the lowest, and their number.
#[derive(Clone, Copy, PartialEq, Eq, Debug, Default)]
struct Bits {
    bits: u32,
    length: u32,
}

#[derive(Drop)]
struct Maker {
    random: Random,
    written: Channels<Written>,
}

impl Written {
    // Keeps a write in mind.
    fn keep(&mut self, register: Register, byte: u8) {
        match register {
            Register::Control if byte < 128 => self.cr = byte,
            Register::Control => self.fr = byte,
            Register::Auxiliary if self.cr & 0x40 == 0 => self.cdr = byte,
            _ => {}
        }
    }

    // Cycles of a bit.
    fn bit_cycles(self) -> u32 {
        BIT_CYCLES[usize::from(self.cr & 15)]
    }

    // The number of data bits.
    fn data_bits(self) -> u32 {
        5 + u32::from((self.fr >> 5) & 3)
    }
}

impl Bits {
    fn push(&mut self, bit: bool) {
        self.extend(Bits {
            bits: u32::from(bit),
            length: 1,
        });
    }

    // Puts other bits behind these.
    fn extend(&mut self, other: Bits) {
        self.bits |= other.bits.wrapping_shl(self.length);
        self.length = self.length.wrapping_add(other.length);
    }
}

impl Maker {
    fn new(seed: u64) -> Maker {
        Maker {
            random: Random::new(seed),
            written: Channels::default(),
        }
    }

    fn channel(&mut self) -> ChannelId {
        if self.random.chance(50) {
            ChannelId::One
        } else {
            ChannelId::Two
        }
    }

    // The select of a register in either channel.
    fn select(&mut self, register: Register) -> u8 {
        let channel = self.channel();
        Place { channel, register }.select()
    }

    // Keeps a write in mind. At a select that no register has there is none.
    fn keep(&mut self, select: u8, byte: u8) {
        if let Ok(Place { channel, register }) = Place::try_from(select) {
            self.written.at_mut(channel).keep(register, byte);
        }
    }

    // Keeps a write in mind, and answers it.
    fn write(&mut self, select: u8, byte: u8) -> Call {
        self.keep(select, byte);
        Call::Write(select, byte)
    }

    // A frame for a channel. Parity and stop bits may be wrong.
    fn frame(&mut self, to: Written) -> Bits {
        let length = to.data_bits();
        let word = if self.random.chance(25) {
            to.cdr
        } else {
            self.random.byte()
        };
        let data = Bits {
            bits: u32::from(word) & 1u32.wrapping_shl(length).wrapping_sub(1),
            length,
        };
        let mut frame = Bits::default();
        frame.push(false);
        frame.extend(data);
        if to.fr & 4 != 0 {
            let odd = data.bits.count_ones() % 2 == 1;
            // odd, even, mark, space: by number, as a type for them would take a second match
            let right = match (to.fr >> 3) & 3 {
                0 => !odd,
                1 => odd,
                2 => true,
                _ => false,
            };
            frame.push(right != self.random.chance(30));
        }
        frame.push(self.random.chance(80));
        frame
    }

    // What comes in at RxD of a channel.
    fn signal(&mut self, to: Written) -> Signal {
        let each = to.bit_cycles();
        match self.random.below(20) {
            0..=1 => Signal::High,
            2 => Signal::Low,
            3..=5 => Signal::Noise {
                seed: self.random.number(),
                stays: self.random.below(each.saturating_mul(2)).saturating_add(1),
            },
            6..=9 => Signal::Other,
            _ => {
                let mut frames = self.frame(to);
                frames.extend(self.frame(to));
                frames.extend(Bits {
                    bits: u32::MAX,
                    length: 0,
                });
                Signal::Bits {
                    lead: self.random.below(each),
                    bits: frames.bits,
                    each,
                }
            }
        }
    }

    // A run that is long enough for a frame of one of the channels, or two, or any part of it.
    fn run(&mut self) -> Call {
        let Channels { one, two } = self.written;
        let channel = self.channel();
        let each = self.written.at(channel).bit_cycles();
        let whole = each.saturating_mul(self.random.below(14).saturating_add(10));
        let most = if self.random.chance(4) {
            LONGEST
        } else {
            USUAL
        };
        let long = whole.min(most);
        let cycles = if self.random.chance(70) {
            long
        } else {
            self.random.below(long)
        };
        let marked = match self.random.below(20) {
            0 => MarkedCycles::Never,
            1 => MarkedCycles::Receiver,
            2 => MarkedCycles::Transmitter,
            3 => MarkedCycles::Mixed,
            _ => MarkedCycles::Always,
        };
        Call::Run(Stretch {
            cycles,
            rxd: Channels {
                one: self.signal(one),
                two: self.signal(two),
            },
            marked,
        })
    }

    // A value of CR: mostly a quick rate.
    fn control(&mut self) -> u8 {
        let rate = match self.random.below(20) {
            0..=13 => 15,
            14..=17 => 14,
            18 => 13,
            _ => self.random.byte() & 15,
        };
        rate | (self.random.byte() & 0x70)
    }

    // A value of FR.
    fn format(&mut self) -> u8 {
        self.random.byte() | 0x80
    }

    fn modem(&mut self) -> Call {
        let channel = self.channel();
        let line = match self.random.below(4) {
            0 => ModemLine::Dcd,
            1 => ModemLine::Dsr,
            _ => ModemLine::Cts,
        };
        Call::Modem(channel, line, self.random.chance(40))
    }

    // An access at a register of either channel.
    fn access(&mut self) -> Call {
        match self.random.below(20) {
            0..=4 => {
                let select = self.select(Register::Data);
                let byte = self.random.byte();
                self.write(select, byte)
            }
            5..=9 => Call::Read(self.select(Register::Data)),
            10..=12 => Call::Read(self.select(Register::Interrupt)),
            13..=14 => Call::Read(self.select(Register::Control)),
            15 => Call::Read(self.random.byte()),
            16 => Call::Read(self.random.byte() & 7),
            17 => {
                let select = self.random.byte();
                let byte = self.random.byte();
                self.write(select, byte)
            }
            _ => {
                let select = self.select(Register::Interrupt);
                let named = self.random.byte() & 0x7f;
                let byte = if self.random.chance(80) {
                    named | 0x80
                } else {
                    named
                };
                self.write(select, byte)
            }
        }
    }

    // A write to CR, FR, CDR or ACR of either channel.
    fn setting(&mut self) -> Call {
        if self.random.chance(35) {
            let select = self.select(Register::Auxiliary);
            let byte = if self.random.chance(60) {
                self.random.byte() & 3
            } else {
                self.random.byte()
            };
            return self.write(select, byte);
        }
        let select = self.select(Register::Control);
        let byte = if self.random.chance(50) {
            self.control()
        } else {
            self.format()
        };
        self.write(select, byte)
    }

    // Accesses that stay open during other calls.
    fn held(&mut self) -> Call {
        let span = self.random.byte() & 3;
        let select = if self.random.chance(95) {
            self.random.byte() & 7
        } else {
            self.random.byte()
        };
        let byte = self.random.byte();
        self.keep(select, byte);
        Call::Held(Held { select, byte, span })
    }

    // The first calls of a channel: they set a quick rate, any format and sources, and clear RDRF.
    fn first_calls(&mut self, channel: ChannelId) -> [Call; 4] {
        let select = |register| Place { channel, register }.select();
        let control = self.control();
        let format = self.format();
        let sources = self.random.byte() | 0x80;
        [
            self.write(select(Register::Control), control),
            self.write(select(Register::Control), format),
            self.write(select(Register::Interrupt), sources),
            Call::Read(select(Register::Data)),
        ]
    }

    // A call of a chip.
    fn chip_call(&mut self) -> Call {
        match self.random.below(100) {
            0..=39 => self.run(),
            40..=69 => self.access(),
            70..=84 => self.setting(),
            85..=91 => self.modem(),
            92..=93 => Call::Reset,
            _ => self.held(),
        }
    }

    fn set_up(&mut self) -> Call {
        let rate = if self.random.chance(80) { 14 } else { 13 };
        let mut cr = rate | (self.random.byte() & 0x70);
        let mut fr = self.format();
        if self.random.chance(10) {
            cr = self.random.byte() | 0x0f;
        }
        if self.random.chance(5) {
            cr |= 0x80;
        }
        if self.random.chance(10) {
            fr &= 0x7f;
        }
        Call::SetUp(cr, fr)
    }

    fn sweep(&mut self) -> Call {
        let cycles: u16 = match self.random.below(12) {
            0 => 0,
            1 => 1,
            2 => 2047,
            3 => 2049,
            4 => 65535,
            5 => 1000,
            6 => 1 + u16::from(self.random.byte()),
            _ => 2048,
        };
        let twice = usize::from(cycles).saturating_mul(2).min(4100);
        let room = match self.random.below(10) {
            0 => 0,
            1..=2 => twice.saturating_sub(1),
            3 => twice.saturating_add(1),
            _ => twice,
        };
        Call::Sweep { cycles, room }
    }

    // The first calls of a board: both channels get a word, so that they may report in one cycle.
    fn first_board_calls(&mut self) -> [Call; 3] {
        let tdr = |channel| {
            Place {
                channel,
                register: Register::Data,
            }
            .select()
        };
        [
            self.set_up(),
            self.write(tdr(ChannelId::One), 0x41),
            self.write(tdr(ChannelId::Two), 0x42),
        ]
    }

    // A call of a board.
    fn board_call(&mut self) -> Call {
        match self.random.below(100) {
            0..=24 => Call::Run(Stretch {
                cycles: self.random.below(1500),
                rxd: Channels {
                    one: Signal::High,
                    two: Signal::High,
                },
                marked: MarkedCycles::Never,
            }),
            25..=39 => self.sweep(),
            40..=47 => self.set_up(),
            48..=84 => self.access(),
            85..=90 => self.modem(),
            91..=93 => self.setting(),
            _ => self.held(),
        }
    }

    // A line for a board, mostly one that was given no level.
    fn cable(&mut self) -> Cable {
        let kind = match self.random.below(4) {
            0 => Kind::Wire,
            1 => Kind::Table,
            2 => Kind::Joint,
            _ => Kind::JointOfJoints,
        };
        let fed = self.random.chance(20).then(|| self.random.number());
        Cable { kind, fed }
    }
}

// The history of a seed.
pub(crate) fn history(heap: Global, seed: u64) -> Result<History, AllocError> {
    let mut maker = Maker::new(seed);
    let mut calls = Vec::new(heap);
    let count = maker.random.below(100).saturating_add(20);
    let device = if seed % 8 != 7 {
        // one history in five does without the first calls
        if !maker.random.chance(20) {
            for channel in ChannelId::BOTH {
                calls.extend_from_slice(&maker.first_calls(channel))?;
            }
        }
        for _ in 8..count {
            calls.push(maker.chip_call())?;
        }
        Device::Chip
    } else {
        calls.extend_from_slice(&maker.first_board_calls())?;
        for _ in 3..count {
            calls.push(maker.board_call())?;
        }
        Device::Board {
            there: maker.cable(),
            back: maker.cable(),
        }
    };
    Ok(History {
        seed,
        device,
        calls,
    })
}
