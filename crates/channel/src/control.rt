// The registers that a program writes to set a channel up: CR, FR, CDR and ACR.
ghost use Rattle.std.specs.Prelude.{◌≡◌, ◌+◌, ◌/◌, ◌%◌, Bool};
ghost use Rattle.serial.specs.Parity.{parity_code};
ghost use Rattle.serial.specs.Format.{data_bits};
ghost use Rattle.channel.specs.Control.{data_at, parity_at, format_of, rate_code, divisor};

use crate::bits::is_set;
use serial::format::{DataBits, Format, StopBits};
use serial::parity::Parity;

#[derive(Clone, Copy, Default)]
pub struct Control {
    pub(crate) cr: u8,
    pub(crate) fr: u8,
    pub(crate) cdr: u8,
    pub(crate) acr: u8,
}

// The cycles from tick to tick for the rate codes 0 to 14.
const DIVISORS: [u16; 15] = [
    4608, 2110, 1712, 1536, 768, 384, 192, 128, 96, 64, 48, 32, 24, 12, 6,
];

// The cycles from tick to tick; none with rate code 15, whose ticks are marked from outside.
fn divisor(code: u8) -> Option<u16>
    ensures { result ≡ divisor code }
{
    DIVISORS.get(usize::from(code)).copied()
}

// FR bits 6-5: the number of data bits, less 5. It is no `From<u8>`, nor is the parity: each is two bits of a register, and no byte.
// Nor is it a table of the four cases: that would be as long as the match, and take the same number as its place.
fn data_bits(fr: u8) -> DataBits
    ensures is { result ≡ data_at (fr / 32 % 4) }
    ensures counts { data_bits result ≡ 5 + fr / 32 % 4 }
{
    match (fr / 32) % 4 {
        0 => DataBits::Five,
        1 => DataBits::Six,
        2 => DataBits::Seven,
        _ => DataBits::Eight,
    }
}

// FR bits 4-3: the code of the parity.
fn parity(fr: u8) -> Parity
    ensures is { result ≡ parity_at (fr / 8 % 4) }
    ensures coded { parity_code result ≡ fr / 8 % 4 }
{
    match (fr / 8) % 4 {
        0 => Parity::Odd,
        1 => Parity::Even,
        2 => Parity::Mark,
        _ => Parity::Space,
    }
}

impl Control {
    // The rate code: CR bits 3-0.
    pub(crate) fn rate_code(&self) -> u8
        ensures { result ≡ rate_code self.now.cr }
    {
        self.cr % 16
    }

    pub(crate) fn divisor(&self) -> Option<u16>
        ensures { result ≡ divisor (rate_code self.now.cr) }
    {
        divisor(self.rate_code())
    }

    // The format that frames begin with.
    pub(crate) fn format(&self) -> Format
        ensures { result ≡ format_of self.now.cr self.now.fr }
    {
        Format {
            bits: data_bits(self.fr),
            parity: is_set(self.fr, 2).then_some(parity(self.fr)),
            stops: if is_set(self.cr, 5) {
                StopBits::Two
            } else {
                StopBits::One
            },
        }
    }
}
