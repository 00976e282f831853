// Values of both channels at once. The second model has a pair of its own, as it shares no code with the first.

use terms::channel_id::ChannelId;
use terms::channels::Channels;

// What a function gives for each channel.
pub(crate) fn each<T, F: Fn(ChannelId) -> T>(of: F) -> Channels<T>
    requires { F.IsAlwaysCallable of }
{
    Channels {
        one: of(ChannelId::One),
        two: of(ChannelId::Two),
    }
}
