// What the second model shows of a channel, to see what changes.

use bitflags::bitflags;
use second_model::{Doing, Hearing, View};

// Which facts hold of a channel. They are bits and no fields of a struct, since each cycle compares them with those
// before: with fields a run took a fifth longer. The first seven are the requests and the next seven the flags, both in the
// order of the bits of ISR.
#[derive(Clone, Copy, PartialEq, Eq, Debug)]
pub(crate) struct State(u32);

bitflags! {
    impl State: u32 {
        const REQUEST_RDRF = 1;
        const REQUEST_FOB = 1 << 1;
        const REQUEST_PAR = 1 << 2;
        const REQUEST_DSRT = 1 << 3;
        const REQUEST_DCDT = 1 << 4;
        const REQUEST_CTST = 1 << 5;
        const REQUEST_TDRE = 1 << 6;
        const RDRF = 1 << 7;
        const FOB = 1 << 8;
        const PAR = 1 << 9;
        const DSRT = 1 << 10;
        const DCDT = 1 << 11;
        const CTST = 1 << 12;
        const TDRE = 1 << 13;
        const FE = 1 << 14;
        const OVR = 1 << 15;
        const BRK = 1 << 16;
        const ASLEEP = 1 << 17;
        const TDR_FULL = 1 << 18;
        const SENDS = 1 << 19;
        const BREAKS = 1 << 20;
        const GATHERS = 1 << 21;
        const WAITS = 1 << 22;
        const OTHER_FORMAT = 1 << 23;
        const TUR = 1 << 24;
        const SHOWS_PARITY = 1 << 25;
        // goes to and fro with each false start bit
        const FALSE_START = 1 << 26;
    }
}

// What a channel was before something, and what it is after it.
#[derive(Clone, Copy, PartialEq, Eq, Debug)]
pub(crate) struct Step {
    pub(crate) was: State,
    pub(crate) is: State,
}

impl Step {
    // The facts that have begun.
    pub(crate) fn begun(self) -> State {
        self.is.difference(self.was)
    }

    // The facts that have ended.
    pub(crate) fn ended(self) -> State {
        self.was.difference(self.is)
    }
}

impl From<View> for State {
    fn from(view: View) -> State {
        let requests = u32::from(view.requests.byte());
        let flags = u32::from(view.flags.byte());
        let mut state = State::from_bits_retain(requests | flags << 7);
        state.set(State::FE, view.errors.framing);
        state.set(State::OVR, view.errors.overrun);
        state.set(State::BRK, view.errors.broken);
        state.set(State::ASLEEP, view.asleep);
        state.set(State::TDR_FULL, view.tdr_full);
        match view.doing {
            Doing::Rests => state.set(State::TUR, state.contains(State::TDRE)),
            Doing::Sends => state.insert(State::SENDS),
            Doing::Breaks => state.insert(State::BREAKS),
        }
        match view.hearing {
            Hearing::Hunts => {}
            Hearing::Gathers => state.insert(State::GATHERS),
            Hearing::Waits => state.insert(State::WAITS),
        }
        state.set(State::OTHER_FORMAT, view.other_format);
        state.set(State::SHOWS_PARITY, view.show_parity_bit);
        state.set(State::FALSE_START, view.false_starts % 2 == 1);
        state
    }
}
