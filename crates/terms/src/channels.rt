// A value for each of the two channels.
ghost use Rattle.std.specs.Prelude.{◌≡◌};
ghost use Rattle.std.specs.Borrow.{sem};
ghost use Rattle.terms.specs.Channels.{value_of, lends_value};

use crate::channel_id::ChannelId;

#[derive(Clone, Copy, PartialEq, Eq, Debug, Default, Drop)]
pub struct Channels<T> {
    pub one: T,
    pub two: T,
}

impl<T> Channels<T> {
    // The value of a channel.
    pub fn at(&self, channel: ChannelId) -> &T
        ensures { result.now ≡ value_of channel self.now }
    {
        match channel {
            ChannelId::One => &self.one,
            ChannelId::Two => &self.two,
        }
    }

    // The value of a channel, to be changed.
    pub fn at_mut(&mut self, channel: ChannelId) -> &mut T
        ensures* writes_back { sem 𝓛 (lends_value T.row self.entry channel result) }
        ensures value { result.now ≡ value_of channel self.old }
    {
        match channel {
            ChannelId::One => &mut self.one,
            ChannelId::Two => &mut self.two,
        }
    }
}
