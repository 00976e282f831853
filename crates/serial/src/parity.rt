// The four parities, and the parity bit of a word.
ghost use Rattle.std.specs.Prelude.{◌≡◌, ◌%◌};
ghost use Rattle.serial.specs.Parity.{parity_bit};

#[derive(Clone, Copy)]
pub enum Parity {
    Odd,
    Even,
    Mark,
    Space,
}

impl Parity {
    // The parity bit of a word: 0 or 1.
    pub(crate) fn bit(self, word: u8) -> u8
        ensures { result ≡ parity_bit self word }
    {
        let ones = (word.count_ones() % 2) as u8;
        match self {
            Parity::Odd => 1 - ones,
            Parity::Even => ones,
            Parity::Mark => 1,
            Parity::Space => 0,
        }
    }
}
