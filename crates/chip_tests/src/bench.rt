// A chip on the bench: one channel of it is under test, and the RxD of the other stays high.
ghost use Rattle.std.specs.Iterator.{at_most};

use channel::channel::{ChannelAnswer, Marks};
use dacia::access::Place;
use dacia::chip::{Chip, Inputs, PoweredChip};
use std::process::Abort;
use std::test::*;
use terms::channel_id::ChannelId;
use terms::channels::Channels;
use terms::modem_line::ModemLine;
use terms::note::{ReadNote, Reading, WriteNote};
use terms::refusal::Refusal;
use terms::register::Register;
use terms::report::{Report, ReportKind};

pub(crate) const LOW: bool = false;

pub(crate) const HIGH: bool = true;

// The registers by their own names.
pub(crate) const ISR: Register = Register::Interrupt;

pub(crate) const IER: Register = Register::Interrupt;

pub(crate) const CSR: Register = Register::Control;

pub(crate) const CR: Register = Register::Control;

pub(crate) const FR: Register = Register::Control;

pub(crate) const CDR: Register = Register::Auxiliary;

pub(crate) const ACR: Register = Register::Auxiliary;

pub(crate) const RDR: Register = Register::Data;

pub(crate) const TDR: Register = Register::Data;

// The marks of a cycle.
pub(crate) const UNMARKED: Marks = Marks {
    rxc: false,
    txc: false,
};

pub(crate) const RXC: Marks = Marks {
    rxc: true,
    txc: false,
};

pub(crate) const TXC: Marks = Marks {
    rxc: false,
    txc: true,
};

pub(crate) const RXC_TXC: Marks = Marks {
    rxc: true,
    txc: true,
};

// What a cycle reports in which a frame ends.
pub(crate) fn ended(kind: ReportKind, word: u8) -> Option<Report> {
    Some(Report { kind, word })
}

pub(crate) fn kept(word: u8) -> Option<Report> {
    ended(ReportKind::Kept, word)
}

// A number of data bits: FR without parity, the number, and the greatest word.
#[derive(Clone, Copy)]
pub(crate) struct Length {
    pub(crate) fr: u8,
    pub(crate) bits: u8,
    pub(crate) greatest: u8,
}

pub(crate) const LENGTHS: [Length; 4] = [
    Length {
        fr: 0x80,
        bits: 5,
        greatest: 0x1f,
    },
    Length {
        fr: 0xa0,
        bits: 6,
        greatest: 0x3f,
    },
    Length {
        fr: 0xc0,
        bits: 7,
        greatest: 0x7f,
    },
    Length {
        fr: 0xe0,
        bits: 8,
        greatest: 0xff,
    },
];

// What a frame has behind its start bit: the low `bits` bits of the word, the parity bit if any, and the stop bits.
#[derive(Clone, Copy)]
pub(crate) struct Frame {
    pub(crate) word: u8,
    pub(crate) bits: u8,
    pub(crate) parity: Option<bool>,
    pub(crate) stops: u8,
}

// Eight data bits, no parity, one stop bit: the frame at FR $E0 with CR bit 5 clear.
pub(crate) fn plain(word: u8) -> Frame {
    Frame {
        word,
        bits: 8,
        parity: None,
        stops: 1,
    }
}

impl Frame {
    // All its bits, from the start bit on.
    fn row(self) -> Bits {
        let mut row = Bits(0, 0);
        row.push(LOW);
        for place in 0..self.bits {
            row.push(bit(u16::from(self.word), place));
        }
        if let Some(parity) = self.parity {
            row.push(parity);
        }
        for _ in 0..self.stops {
            row.push(HIGH);
        }
        row
    }
}

// Bits in a row: how many, and a number that ends with them, the first of them the highest.
#[derive(Clone, Copy)]
pub(crate) struct Bits(pub(crate) u8, pub(crate) u16);

impl Bits {
    fn push(&mut self, bit: bool) {
        self.0 = self.0.saturating_add(1);
        self.1 = self.1 << 1 | u16::from(bit);
    }
}

impl Iterator for Bits {
    type Item = bool;

    ghost remaining = { λ s. at_most s.0 };

    fn next(&mut self) -> Option<bool> {
        self.0 = self.0.checked_sub(1)?;
        Some(bit(self.1, self.0))
    }
}

// A bit of a number; those that it has no place for are low.
fn bit(number: u16, place: u8) -> bool {
    number.checked_shr(u32::from(place)).unwrap_or(0) % 2 == 1
}

// The select of a channel's register.
pub(crate) fn select(channel: ChannelId, register: Register) -> u8 {
    Place { channel, register }.select()
}

// A cycle of a chip with one level on the RxD of a channel and another on that of the other one.
pub(crate) fn cycle_of(
    chip: &mut Chip,
    channel: ChannelId,
    own: bool,
    other: bool,
    marks: Marks,
) -> ChannelAnswer {
    let mut rxd = Channels {
        one: other,
        two: other,
    };
    *rxd.at_mut(channel) = own;
    *chip.cycle(Inputs { rxd, marks }).at(channel)
}

#[derive(Drop)]
pub(crate) struct Bench {
    chip: Chip,
    pub(crate) channel: ChannelId,
    // the step of a script or the value of a table that is being tried, for the message of a failed assertion
    pub(crate) at: usize,
}

impl Bench {
    // A chip after its first reset.
    pub(crate) fn new(channel: ChannelId) -> Bench {
        Bench {
            chip: PoweredChip::power_on().reset(),
            channel,
            at: 0,
        }
    }

    // The same with rate code 15 and the given FR, and with RDR read: of ISR only TDRE is left.
    pub(crate) fn clocked(channel: ChannelId, fr: u8) -> Result<Bench, Refusal> {
        let mut bench = Bench::new(channel);
        bench.write(CR, 0x0f)?;
        bench.write(FR, fr)?;
        bench.read(RDR)?;
        Ok(bench)
    }

    pub(crate) fn read(&mut self, register: Register) -> Result<Reading, Refusal> {
        self.chip.read(select(self.channel, register))
    }

    pub(crate) fn write(
        &mut self,
        register: Register,
        byte: u8,
    ) -> Result<Option<WriteNote>, Refusal> {
        self.chip.write(select(self.channel, register), byte)
    }

    // Writes ACR, and leaves CR at $0F.
    pub(crate) fn write_acr(&mut self, byte: u8) -> Result<(), Refusal> {
        self.write(CR, 0x4f)?;
        self.write(ACR, byte)?;
        self.write(CR, 0x0f)?;
        Ok(())
    }

    pub(crate) fn modem(&mut self, line: ModemLine, level: bool) {
        self.chip.set_modem(self.channel, line, level);
    }

    pub(crate) fn reset(&mut self) {
        self.chip.reset();
    }

    pub(crate) fn cycle(&mut self, rxd: bool, marks: Marks) -> ChannelAnswer {
        cycle_of(&mut self.chip, self.channel, rxd, HIGH, marks)
    }

    // Cycles marked RxC with one level on RxD; the last report, if there is one.
    pub(crate) fn hear(&mut self, level: bool, ticks: u16) -> Option<Report> {
        let mut last = None;
        for _ in 0..ticks {
            last = self.cycle(level, RXC).report.or(last);
        }
        last
    }

    // Bits on RxD, each for 16 ticks; the report in the last one.
    pub(crate) fn hears_bits(&mut self, bits: Bits) -> Option<Report> {
        let mut last = None;
        for level in bits {
            last = self.hear(level, 16);
        }
        last
    }

    // A frame on RxD; the last report in its stop bits, if there is one.
    pub(crate) fn hears_frame(&mut self, frame: Frame) -> Option<Report> {
        self.hears_bits(Frame { stops: 0, ..frame }.row());
        self.hear(HIGH, 16 * u16::from(frame.stops))
    }

    // A word on RxD in a plain frame.
    pub(crate) fn hears_word(&mut self, word: u8) -> Option<Report> {
        self.hears_frame(plain(word))
    }

    // A cycle marked TxC; the level of TxD.
    pub(crate) fn tick(&mut self) -> bool {
        self.cycle(HIGH, TXC).txd
    }

    // Cycles marked TxC, with one level on TxD in all of them.
    pub(crate) fn sends_level(
        &mut self,
        rt: &impl Abort,
        level: bool,
        ticks: u16,
    ) -> Result<(), Fail> {
        for tick in 0..ticks {
            assert_eq!(rt;
                self.tick(),
                level,
                "TxD {} in tick {} at {}",
                self.channel.number(),
                tick,
                self.at
            );
        }
        Ok(())
    }

    // Bits on TxD, each for 16 ticks.
    pub(crate) fn sends_bits(&mut self, rt: &impl Abort, bits: Bits) -> Result<(), Fail> {
        for level in bits {
            self.sends_level(rt, level, 16)?;
        }
        Ok(())
    }

    // A frame on TxD.
    pub(crate) fn sends_frame(&mut self, rt: &impl Abort, frame: Frame) -> Result<(), Fail> {
        self.sends_bits(rt, frame.row())
    }

    pub(crate) fn isr_is(&mut self, rt: &impl Abort, byte: u8) -> Result<(), Fail> {
        let reading = self.read(ISR)?;
        assert_eq!(rt;
            reading.byte,
            byte,
            "ISR{} at {}",
            self.channel.number(),
            self.at
        );
        Ok(())
    }

    // A write to TDR, and its note.
    pub(crate) fn tdr_notes(
        &mut self,
        rt: &impl Abort,
        word: u8,
        note: WriteNote,
    ) -> Result<(), Fail> {
        assert_eq!(rt;
            self.write(TDR, word)?,
            Some(note),
            "TDR{} at {}",
            self.channel.number(),
            self.at
        );
        Ok(())
    }

    pub(crate) fn rdr_is(&mut self, rt: &impl Abort, byte: u8, note: ReadNote) -> Result<(), Fail> {
        let reading = self.read(RDR)?;
        assert_eq!(rt;
            reading,
            Reading {
                byte,
                note: Some(note)
            },
            "RDR{} at {}",
            self.channel.number(),
            self.at
        );
        Ok(())
    }

    pub(crate) fn irq_is(&self, rt: &impl Abort, level: bool) -> Result<(), Fail> {
        assert_eq!(rt;
            self.chip.irq(self.channel),
            level,
            "IRQ{} at {}",
            self.channel.number(),
            self.at
        );
        Ok(())
    }
}
