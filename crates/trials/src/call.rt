// The calls of a history, and how they are printed.

use crate::answer::level;
use crate::random::mixed;
use channel::channel::Marks;
use dacia::chip::Inputs;
use std::fmt;
use terms::channel_id::ChannelId;
use terms::channels::Channels;
use terms::modem_line::ModemLine;

// The level of an RxD input over the cycles of a run.
#[derive(Clone, Copy, PartialEq, Eq, Debug)]
pub(crate) enum Signal {
    High,
    Low,
    // TxD of the other channel
    Other,
    // a random level that stays for so many cycles
    Noise { seed: u64, stays: u32 },
    // high, and then bits from the lowest, so many cycles each
    Bits { lead: u32, bits: u32, each: u32 },
}

// Which cycles of a run are marked.
#[derive(Clone, Copy, PartialEq, Eq, Debug)]
pub(crate) enum MarkedCycles {
    Never,
    Always,
    Receiver,
    Transmitter,
    Mixed,
}

// Cycles in a row.
#[derive(Clone, Copy, PartialEq, Eq, Debug)]
pub(crate) struct Stretch {
    pub(crate) cycles: u32,
    pub(crate) rxd: Channels<Signal>,
    pub(crate) marked: MarkedCycles,
}

// A read and a write at one select that stay open during the next so many calls.
#[derive(Clone, Copy, PartialEq, Eq, Debug)]
pub(crate) struct Held {
    pub(crate) select: u8,
    pub(crate) byte: u8,
    pub(crate) span: u8,
}

#[derive(Clone, Copy, PartialEq, Eq, Debug)]
pub(crate) enum Call {
    Reset,
    Read(u8),
    Write(u8, u8),
    Held(Held),
    Modem(ChannelId, ModemLine, bool),
    Run(Stretch),
    // the bytes of CR and FR, which no other call takes together
    SetUp(u8, u8),
    // so many cycles, into so many records
    Sweep { cycles: u16, room: usize },
}

impl Signal {
    // The level in a cycle of the run, given TxD of the other channel.
    fn level(self, cycle: u32, other: bool) -> bool {
        match self {
            Signal::High => true,
            Signal::Low => false,
            Signal::Other => other,
            Signal::Noise { seed, stays } => {
                let place = cycle.checked_div(stays).unwrap_or(0);
                mixed(seed.wrapping_add(u64::from(place))) & 1 == 1
            }
            Signal::Bits { lead, bits, each } => {
                let place = cycle
                    .checked_sub(lead)
                    .and_then(|after| after.checked_div(each));
                match place {
                    Some(place) if place < 32 => (bits >> place) & 1 == 1,
                    _ => true,
                }
            }
        }
    }
}

impl MarkedCycles {
    // The marks of a cycle.
    fn at(self, cycle: u32) -> Marks {
        let (rxc, txc) = match self {
            MarkedCycles::Never => (false, false),
            MarkedCycles::Always => (true, true),
            MarkedCycles::Receiver => (true, false),
            MarkedCycles::Transmitter => (false, true),
            MarkedCycles::Mixed => {
                let number = mixed(u64::from(cycle));
                (number & 1 == 1, number & 2 == 2)
            }
        };
        Marks { rxc, txc }
    }
}

impl Stretch {
    // The inputs of a cycle, given the levels of TxD.
    pub(crate) fn inputs(self, cycle: u32, txd: Channels<bool>) -> Inputs {
        Inputs {
            rxd: Channels {
                one: self.rxd.one.level(cycle, txd.two),
                two: self.rxd.two.level(cycle, txd.one),
            },
            marks: self.marked.at(cycle),
        }
    }
}

impl Call {
    // How many calls are made while it is open. At a select that no register has nothing stays open.
    pub(crate) fn span(self) -> usize {
        match self {
            Call::Held(held) if held.select < 8 => usize::from(held.span),
            _ => 0,
        }
    }
}

impl fmt::Display for Signal {
    fn fmt<W: fmt::Write>(&self, f: &mut fmt::Formatter<W>) -> fmt::Result {
        match self {
            Signal::High => f.write_str("high"),
            Signal::Low => f.write_str("low"),
            Signal::Other => f.write_str("TxD of the other channel"),
            Signal::Noise { seed, stays } => {
                write!(f, "noise from seed {seed}, {stays} cycles a level")
            }
            Signal::Bits { lead, bits, each } => {
                write!(f, "bits ${bits:X} after {lead} cycles, {each} cycles a bit")
            }
        }
    }
}

impl fmt::Display for MarkedCycles {
    fn fmt<W: fmt::Write>(&self, f: &mut fmt::Formatter<W>) -> fmt::Result {
        f.write_str(match self {
            MarkedCycles::Never => "never",
            MarkedCycles::Always => "in each cycle",
            MarkedCycles::Receiver => "RxC in each cycle",
            MarkedCycles::Transmitter => "TxC in each cycle",
            MarkedCycles::Mixed => "at random",
        })
    }
}

impl fmt::Display for Stretch {
    fn fmt<W: fmt::Write>(&self, f: &mut fmt::Formatter<W>) -> fmt::Result {
        let Stretch {
            cycles,
            rxd: Channels { one, two },
            marked,
        } = self;
        write!(
            f,
            "run of {cycles} cycles\n     RxD1 {one}; RxD2 {two}; marked {marked}"
        )
    }
}

impl fmt::Display for Call {
    fn fmt<W: fmt::Write>(&self, f: &mut fmt::Formatter<W>) -> fmt::Result {
        match self {
            Call::Reset => f.write_str("reset"),
            Call::Read(select) => write!(f, "read at select {select}"),
            Call::Write(select, byte) => write!(f, "write ${byte:02X} at select {select}"),
            Call::Held(Held { select, byte, span }) => write!(
                f,
                "read, and write ${byte:02X}, at select {select}, open during {span} calls"
            ),
            Call::Modem(channel, line, high) => {
                write!(f, "{line}{} goes {}", channel.number(), level(*high))
            }
            Call::Run(run) => write!(f, "{run}"),
            Call::SetUp(cr, fr) => write!(f, "set up with CR ${cr:02X} and FR ${fr:02X}"),
            Call::Sweep { cycles, room } => {
                write!(f, "sweep of {cycles} cycles into {room} records")
            }
        }
    }
}
