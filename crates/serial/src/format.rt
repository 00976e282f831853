// The format of a frame, and a word packed into its frame.
ghost use Rattle.std.specs.Prelude.{◌≡◌, ℕ, ◌/◌, ◌%◌, ◌^◌, ◌<◌};
ghost use Rattle.serial.specs.Format.{data_bits, stop_bits, stop_at, frame_bits, cut};
ghost use Rattle.serial.specs.Frame.{check_bit, packed, frame, FrameLaw};
ghost use Rattle.serial.specs.Transmitter.{frame_ticks};

use crate::parity::Parity;

#[derive(Clone, Copy)]
pub enum DataBits {
    Five = 5,
    Six = 6,
    Seven = 7,
    Eight = 8,
}

// How many they are. No trait of the two enums: each would say the same line for itself, and nothing is generic over them.
impl DataBits {
    pub(crate) fn count(self) -> u8
        ensures { result ≡ data_bits self }
    {
        self as u8
    }
}

#[derive(Clone, Copy)]
pub enum StopBits {
    One = 1,
    Two = 2,
}

impl StopBits {
    pub(crate) fn count(self) -> u8
        ensures { result ≡ stop_bits self }
    {
        self as u8
    }
}

#[derive(Clone, Copy)]
pub struct Format {
    pub bits: DataBits,
    pub parity: Option<Parity>,
    pub stops: StopBits,
}

// Bit `k` of a frame.
pub(crate) fn bit_at(frame: u16, k: u8) -> u8
    requires { k < 16 }
    ensures { result ≡ frame / 2 ^ k % 2 }
{
    ((frame >> k) & 1) as u8
}

impl Format {
    // The place of the first stop bit: behind the start bit, the data bits and the parity bit.
    pub(crate) fn stop_at(self) -> u8
        ensures { result ≡ stop_at self }
    {
        1 + self.bits.count() + u8::from(self.parity.is_some())
    }

    // The number of bits of a frame.
    pub(crate) fn frame_bits(self) -> u8
        ensures { result ≡ frame_bits self }
    {
        self.stop_at() + self.stops.count()
    }

    // The ticks of a frame: 16 to a bit.
    pub(crate) fn frame_ticks(self) -> u8
        ensures { result ≡ frame_ticks self }
    {
        16 * self.frame_bits()
    }

    // The word with only its data bits.
    pub(crate) fn cut(self, word: u16) -> u8
        ensures { result ≡ cut self word }
    {
        (word & ((1 << self.bits.count()) - 1)) as u8
    }

    // The parity bit of a word that is cut already, 0 where the format has none.
    pub(crate) fn check_bit(self, word: u8) -> u8
        ensures { result ≡ check_bit self.parity word }
    {
        self.parity.map_or(0, |parity| parity.bit(word))
    }

    // The frame of a word: bit 0 is sent first.
    pub fn frame(self, word: u8) -> u16
        ensures is { result ≡ frame self word }
        ensures law { FrameLaw self word result }
    {
        let data = self.cut(u16::from(word));
        self.pack(data)
    }

    // The frame of a word that is cut already.
    fn pack(self, word: u8) -> u16
        requires { word < 2 ^ data_bits self.bits }
        ensures is { result ≡ packed self word }
        ensures law { (w : ℕ) → word ≡ cut self w → FrameLaw self w result }
    {
        let parity = self.check_bit(word);
        let stops: u16 = (1 << self.stops.count()) - 1;
        u16::from(word) << 1
            | u16::from(parity) << (1 + self.bits.count())
            | stops << self.stop_at()
    }
}
