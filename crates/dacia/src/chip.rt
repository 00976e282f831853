// The chip: two channels.
ghost use Rattle.std.specs.Prelude.{◌≡◌};
ghost use Rattle.terms.specs.Refusal.{refused_by};
ghost use Rattle.channel.specs.Channel.{txd_of, irq_of};
ghost use Rattle.dacia.specs.Access.{opens_by, reads_by, read_by};
ghost use Rattle.dacia.specs.Chip.{channel_of, powered_chip, first_reset, chip_reset, read_ended, after_read_ended, write_ended, after_write_ended, modem_on, chip_cycled, read_once, after_read_once, write_once, after_write_once};
ghost use Rattle.dacia.specs.Separation.{Separated};

use crate::access::{ReadAccess, WriteAccess};
use channel::channel::{Channel, ChannelAnswer, Marks};
use terms::channel_id::ChannelId;
use terms::channels::Channels;
use terms::modem_line::ModemLine;
use terms::note::{Reading, WriteNote};
use terms::refusal::Refusal;

// A chip at power on: it allows only a reset. It is a type of its own, so that a register read before the reset does not compile.
#[derive(Drop)]
pub struct PoweredChip {
    channels: Channels<Channel>,
}

// A chip that was reset.
#[derive(Drop)]
pub struct Chip {
    channels: Channels<Channel>,
}

// The levels of RxD in a cycle, and its marks.
#[derive(Clone, Copy, PartialEq, Eq, Debug)]
pub struct Inputs {
    pub rxd: Channels<bool>,
    pub marks: Marks,
}

// What the chip answers to a cycle.
pub type ChipAnswer = Channels<ChannelAnswer>;

impl PoweredChip {
    pub fn power_on() -> PoweredChip
        ensures { result ≡ powered_chip }
    {
        PoweredChip {
            channels: Channels {
                one: Channel::power_on(),
                two: Channel::power_on(),
            },
        }
    }

    // The first reset, which gives the chip that allows everything else. From here on nothing done to one channel shows on the other.
    pub fn reset(self) -> Chip
        ensures is { result ≡ first_reset self }
        ensures separation { Separated result }
    {
        let PoweredChip { channels } = self;
        let mut chip = Chip { channels };
        chip.reset();
        chip
    }
}

// Accesses are inlined, so that a select that is known where the call stands costs nothing to look up.
impl Chip {
    pub fn reset(&mut self)
        ensures { self.new ≡ chip_reset self.old }
    {
        self.channels.one.reset();
        self.channels.two.reset();
    }

    // Ends a read: it works now, on this chip.
    #[inline(always)]
    pub fn end_read(&mut self, access: ReadAccess) -> Result<Reading, Refusal>
        ensures answers { result ≡ read_ended access self.old }
        ensures leaves { self.new ≡ after_read_ended access self.old }
        ensures refusals { refused_by result ≡ reads_by access.place.register }
    {
        let place = access.spend();
        self.channels.at_mut(place.channel).read(place.register)
    }

    // Ends a write, with the byte to write: it works now, on this chip.
    #[inline(always)]
    pub fn end_write(&mut self, access: WriteAccess, byte: u8) -> Option<WriteNote>
        ensures answers { result ≡ write_ended access self.old }
        ensures leaves { self.new ≡ after_write_ended access byte self.old }
    {
        let place = access.spend();
        let channel = self.channels.at_mut(place.channel);
        channel.write(place.register, byte)
    }

    // A read that is opened and ended with nothing between.
    #[inline(always)]
    pub fn read(&mut self, select: u8) -> Result<Reading, Refusal>
        ensures answers { result ≡ read_once select self.old }
        ensures leaves { self.new ≡ after_read_once select self.old }
        ensures refusals { refused_by result ≡ read_by select }
    {
        let access = ReadAccess::open(select)?;
        self.end_read(access)
    }

    // A write that is opened and ended with nothing between.
    #[inline(always)]
    pub fn write(&mut self, select: u8, byte: u8) -> Result<Option<WriteNote>, Refusal>
        ensures answers { result ≡ write_once select self.old }
        ensures leaves { self.new ≡ after_write_once select byte self.old }
        ensures refusals { refused_by result ≡ opens_by select }
    {
        let access = WriteAccess::open(select)?;
        Ok(self.end_write(access, byte))
    }

    // A level on a modem input.
    pub fn set_modem(&mut self, channel: ChannelId, line: ModemLine, level: bool)
        ensures { self.new ≡ modem_on channel line level self.old }
    {
        self.channels.at_mut(channel).set_modem(line, level);
    }

    // One cycle of both channels.
    pub fn cycle(&mut self, inputs: Inputs) -> ChipAnswer
        ensures { (result, self.new) ≡ chip_cycled inputs self.old }
    {
        let one = self.channels.one.cycle(inputs.rxd.one, inputs.marks);
        let two = self.channels.two.cycle(inputs.rxd.two, inputs.marks);
        ChipAnswer { one, two }
    }

    // The level of a TxD pin.
    pub fn txd(&self, channel: ChannelId) -> bool
        ensures { result ≡ txd_of (channel_of channel self.now) }
    {
        self.channels.at(channel).txd()
    }

    // The level of an IRQ pin.
    pub fn irq(&self, channel: ChannelId) -> bool
        ensures { result ≡ irq_of (channel_of channel self.now) }
    {
        self.channels.at(channel).irq()
    }
}
