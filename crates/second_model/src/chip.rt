// The chip: two channels behind eight selects.

use super::channel::{Channel, View};
use super::clock::Ticks;
use super::inputs::Input;
use super::outcome::{ReadOut, Refusal, Report, WriteNote};
use super::side::{Both, Side};

// The registers of a channel.
#[derive(Clone, Copy, PartialEq, Eq, Debug)]
enum Register {
    Interrupt,
    Control,
    Auxiliary,
    Data,
}

impl Register {
    // All of them, in the order of their addresses.
    const ALL: [Register; 4] = [
        Register::Interrupt,
        Register::Control,
        Register::Auxiliary,
        Register::Data,
    ];
}

// An access that was opened at a select.
#[derive(Clone, Copy, PartialEq, Eq, Debug)]
pub struct Access {
    side: Side,
    register: Register,
}

// What goes into a cycle: the levels of RxD, and what RxC and TxC mark.
#[derive(Clone, Copy, Debug)]
pub struct Pins {
    pub rxd: Both<bool>,
    pub marks: Ticks,
}

// What a cycle answers for one channel.
#[derive(Clone, Copy, PartialEq, Eq, Debug)]
pub struct Answer {
    pub txd: bool,
    pub irq: bool,
    pub report: Option<Report>,
}

// A chip that was reset.
#[derive(Drop)]
pub struct Chip {
    channels: Both<Channel>,
}

impl Access {
    // Opens an access.
    pub fn open(select: u8) -> Result<Access, Refusal> {
        let side = match select {
            0..=3 => Side::One,
            4..=7 => Side::Two,
            _ => return Err(Refusal::NoSuchSelect),
        };
        let register = Register::ALL[usize::from(select % 4)];
        Ok(Access { side, register })
    }
}

impl Chip {
    // A newly reset chip.
    pub fn new() -> Chip {
        let mut chip = Chip {
            channels: Both::each(|_| Channel::new()),
        };
        chip.reset();
        chip
    }

    // A newly reset chip with these CR and FR values in both channels, whose RDRs were read. The two values are no struct,
    // as a set-up alone takes both, and writes each alone.
    pub(crate) fn set_up(control: u8, format: u8) -> Chip {
        let mut chip = Chip::new();
        for side in Side::BOTH {
            let channel = chip.channels.at_mut(side);
            channel.write_control(control);
            channel.write_control(format);
            channel.read_data();
        }
        chip
    }

    // A reset of both channels.
    pub fn reset(&mut self) {
        for side in Side::BOTH {
            self.channels.at_mut(side).reset();
        }
    }

    // Ends a read.
    pub fn read(&mut self, access: Access) -> Result<ReadOut, Refusal> {
        let channel = self.channels.at_mut(access.side);
        match access.register {
            Register::Interrupt => Ok(channel.read_interrupts()),
            Register::Control => Ok(channel.read_status()),
            Register::Auxiliary => Err(Refusal::NothingToRead),
            Register::Data => Ok(channel.read_data()),
        }
    }

    // Ends a write. Only a write to TDR has a note.
    pub fn write(&mut self, access: Access, byte: u8) -> Option<WriteNote> {
        let channel = self.channels.at_mut(access.side);
        match access.register {
            Register::Interrupt => channel.write_interrupts(byte),
            Register::Control => channel.write_control(byte),
            Register::Auxiliary => channel.write_auxiliary(byte),
            Register::Data => return Some(channel.write_data(byte)),
        }
        None
    }

    // A level of a modem input.
    pub fn modem(&mut self, side: Side, input: Input, high: bool) {
        self.channels.at_mut(side).modem(input, high);
    }

    // One cycle.
    pub fn cycle(&mut self, pins: Pins) -> Both<Answer> {
        Both::each(|side| self.cycle_of(side, pins))
    }

    fn cycle_of(&mut self, side: Side, pins: Pins) -> Answer {
        let channel = self.channels.at_mut(side);
        let report = channel.cycle(*pins.rxd.at(side), pins.marks);
        Answer {
            txd: channel.txd(),
            irq: channel.irq(),
            report,
        }
    }

    // The level of TxD.
    pub fn txd(&self, side: Side) -> bool {
        self.channels.at(side).txd()
    }

    // The level of IRQ.
    pub fn irq(&self, side: Side) -> bool {
        self.channels.at(side).irq()
    }

    // What the calls do not show.
    pub fn view(&self, side: Side) -> View {
        self.channels.at(side).view()
    }
}
