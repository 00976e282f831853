// Accesses: one is opened at a select, and has to be spent by ending it on a chip.
ghost use Rattle.std.specs.Prelude.{◌≡◌, Ok, Err};
ghost use Rattle.terms.specs.Refusal.{refused_by};
ghost use Rattle.dacia.specs.Access.{register_at, Names, select_of, access_opened, opens_by};

use std::marker::PhantomData;
use terms::channel_id::ChannelId;
use terms::refusal::Refusal;
use terms::register::Register;

// The channel and the register that a select names.
#[derive(Clone, Copy)]
pub struct Place {
    pub channel: ChannelId,
    pub register: Register,
}

// What an access is opened for: a read or a write. The trait is this module's own, so that nobody adds a third.
trait Purpose {}

#[derive(Clone, Copy)]
pub struct ForReading;

#[derive(Clone, Copy)]
pub struct ForWriting;

impl Purpose for ForReading {}

impl Purpose for ForWriting {}

// An access under way. It is no `Drop`: whoever opens one ends it.
pub struct Access<K: Purpose> {
    pub(crate) place: Place,
    pub(crate) kind: PhantomData<K>,
}

pub type ReadAccess = Access<ForReading>;

pub type WriteAccess = Access<ForWriting>;

// The register by the last two bits of its select. It is no `TryFrom`, as each of the four values that they have is a register, and
// no table of the four: that would be as long as the match, and take the same number as its place.
fn register_at(number: u8) -> Register
    ensures { result ≡ register_at number }
{
    match number {
        0 => Register::Interrupt,
        1 => Register::Control,
        2 => Register::Auxiliary,
        _ => Register::Data,
    }
}

impl TryFrom<u8> for Place {
    type Error = Refusal;

    ghost try_from_gives = { Names };

    fn try_from(select: u8) -> Result<Place, Refusal> {
        let channel = match select {
            0..=3 => ChannelId::One,
            4..=7 => ChannelId::Two,
            _ => return Err(Refusal::NoSuchSelect),
        };
        Ok(Place {
            channel,
            register: register_at(select % 4),
        })
    }
}

impl Place {
    // The select that names it.
    pub fn select(self) -> u8
        ensures { result ≡ select_of self }
    {
        let first = match self.channel {
            ChannelId::One => 0,
            ChannelId::Two => 4,
        };
        first + self.register.number()
    }
}

impl<K: Purpose> Access<K> {
    // Ends an access that was opened, and gives the place at which it works.
    pub(crate) fn spend(self) -> Place
        ensures { result ≡ self.place }
    {
        let Access {
            place,
            kind: PhantomData,
        } = self;
        place
    }

    // Opens an access; a select above 7 opens nothing.
    #[inline(always)]
    pub fn open(select: u8) -> Result<Access<K>, Refusal>
        ensures is { result ≡ access_opened select }
        ensures refusals { refused_by result ≡ opens_by select }
    {
        let place = Place::try_from(select)?;
        Ok(Access {
            place,
            kind: PhantomData,
        })
    }
}
