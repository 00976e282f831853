// The interrupt sources of a channel: which are enabled, and which have a request. Bits 6-0 are the sources in the order of ISR.
// They are bytes and no set over an enum: a write to IER and the two ISR bytes of a change come as such bytes, and nothing asks for one source.
ghost use Rattle.std.specs.Prelude.{◌≡◌, Bool, ◌==◌};
ghost use Rattle.channel.specs.Interrupts.{followed, ier_written};

use crate::bits::is_set;

#[derive(Clone, Copy, Default)]
pub struct Interrupts {
    pub(crate) enabled: u8,
    pub(crate) requests: u8,
}

// The sources whose request a rise of their ISR bit raises: all in a tick of the transmitter, in which TDRE rises as a word is taken,
// elsewhere all but TDRE.
pub(crate) const ALL: u8 = 0x7f;

pub(crate) const ALL_BUT_TDRE: u8 = 0x3f;

impl Interrupts {
    // The sources went from `before` to `after`: a bit that rose raises its request if it is enabled and may, one that is 0 drops it.
    pub(crate) fn follow(&mut self, may: u8, before: u8, after: u8)
        ensures { self.new ≡ followed may before after self.old }
    {
        let rose = after & (before ^ 0x7f);
        self.requests = (self.requests & after) | (rose & self.enabled & may);
    }

    // A write to IER: bit 7 set enables, clear disables, the sources whose bits 6-0 are 1.
    pub(crate) fn write_ier(&mut self, byte: u8)
        ensures { self.new ≡ ier_written byte self.old }
    {
        if is_set(byte, 7) {
            self.enabled |= byte & 0x7f;
        } else {
            self.enabled &= byte ^ 0x7f;
        }
        self.requests &= self.enabled;
    }

    // IRQ: low while there is a request.
    pub(crate) fn irq(&self) -> bool
        ensures { result ≡ (self.now.requests == 0) }
    {
        self.requests == 0
    }
}
