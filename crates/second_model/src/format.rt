// How a word is laid out in a frame.

ghost use Rattle.std.specs.Prelude.{◌≤◌};

// The rule that gives a parity bit.
#[derive(Clone, Copy, PartialEq, Eq, Debug)]
pub enum ParityRule {
    Odd,
    Even,
    Mark,
    Space,
}

// The layout of a frame: data bits, parity bit if there is one, stop bits.
#[derive(Clone, Copy, PartialEq, Eq, Debug)]
pub struct Layout {
    pub data_bits: u8,
    pub parity: Option<ParityRule>,
    pub stop_bits: u8,
    ghost five_or_more: { 5 ≤ data_bits },
    ghost eight_or_fewer: { data_bits ≤ 8 },
    ghost one_or_two: { stop_bits ≤ 2 },
}

impl Layout {
    // The layout with the data bits and the parity of an FR byte.
    pub(crate) fn with_format(self, byte: u8) -> Layout {
        let rule = ParityRule::ALL[usize::from(byte >> 3 & 3)];
        Layout {
            data_bits: (byte >> 5 & 3) + 5,
            parity: (byte & 0x04 != 0).then_some(rule),
            stop_bits: self.stop_bits,
        }
    }

    // The layout with the stop bits of a CR byte.
    pub(crate) fn with_control(self, byte: u8) -> Layout {
        Layout {
            data_bits: self.data_bits,
            parity: self.parity,
            stop_bits: if byte & 0x20 != 0 { 2 } else { 1 },
        }
    }

    // A word without the bits that have no place in the frame.
    pub(crate) fn cut(self, word: u8) -> u8 {
        word & (0xff >> (8 - self.data_bits))
    }

    // The number of bits in front of the first stop bit, the start bit with them.
    pub(crate) fn bits_before_stop(self) -> u8
        ensures { result ≤ 10 }
    {
        1 + self.data_bits + u8::from(self.parity.is_some())
    }

    // The number of bits of the whole frame.
    pub(crate) fn bits(self) -> u8 {
        self.bits_before_stop() + self.stop_bits
    }

    // Whether another layout has other numbers of bits.
    pub(crate) fn differs(self, other: Layout) -> bool {
        (self.data_bits, self.bits()) != (other.data_bits, other.bits())
    }
}

impl ParityRule {
    // All of them, in the order of their codes in FR bits 4-3.
    const ALL: [ParityRule; 4] = [
        ParityRule::Odd,
        ParityRule::Even,
        ParityRule::Mark,
        ParityRule::Space,
    ];

    // The parity bit that belongs to a word.
    pub(crate) fn bit_for(self, word: u8) -> bool {
        match self {
            ParityRule::Odd => word.count_ones() % 2 == 0,
            ParityRule::Even => word.count_ones() % 2 == 1,
            ParityRule::Mark => true,
            ParityRule::Space => false,
        }
    }
}
