// The two channels of a chip.
ghost use Rattle.std.specs.Prelude.{◌≡◌};
ghost use Rattle.terms.specs.ChannelId.{channel_number, other};

#[derive(Clone, Copy, PartialEq, Eq, Debug)]
pub enum ChannelId {
    One = 1,
    Two = 2,
}

impl ChannelId {
    pub const BOTH: [ChannelId; 2] = [ChannelId::One, ChannelId::Two];

    // The other of the two.
    pub fn other(self) -> ChannelId
        ensures { result ≡ other self }
    {
        match self {
            ChannelId::One => ChannelId::Two,
            ChannelId::Two => ChannelId::One,
        }
    }

    pub fn number(self) -> u8
        ensures { result ≡ channel_number self }
    {
        self as u8
    }
}
