// When the receiver and the transmitter of a channel tick.

// The rates of codes 0 to 14 in hundredths of a baud.
const RATES: [u32; 15] = [
    5_000, 10_920, 13_458, 15_000, 30_000, 60_000, 120_000, 180_000, 240_000, 360_000, 480_000,
    720_000, 960_000, 1_920_000, 3_840_000,
];

// Ticks in a second at one baud, in hundredths: 3,686,400 / 16.
const TICKS: u32 = 23_040_000;

// Which parts of a channel tick in a cycle, or are marked to tick.
#[derive(Clone, Copy, PartialEq, Eq, Debug, Default)]
pub struct Ticks {
    pub receiver: bool,
    pub transmitter: bool,
}

// Gives the ticks of a rate code. The code without a rate takes those of the inputs RxC and TxC.
#[derive(Drop)]
pub struct Clock {
    code: u8,
    countdown: Option<Countdown>,
}

// Counts the cycles down to the next tick.
#[derive(Clone, Copy, PartialEq, Eq, Debug)]
struct Countdown {
    period: u32,
    left: u32,
}

// The cycles of a tick, to the nearest whole number, if the code has a rate.
fn period_of(code: u8) -> Option<u32> {
    let rate = *RATES.get(usize::from(code))?;
    (TICKS + rate / 2).checked_div(rate)
}

impl Countdown {
    // One cycle. It answers whether the tick is due.
    fn cycle(&mut self) -> bool {
        self.left = self.left.saturating_sub(1);
        let due = self.left == 0;
        if due {
            self.left = self.period;
        }
        due
    }
}

impl Clock {
    // The clock that begins to count with a rate code.
    pub(crate) fn with_code(code: u8) -> Clock {
        Clock {
            code,
            countdown: period_of(code).map(|period| Countdown {
                period,
                left: period,
            }),
        }
    }

    // Takes a rate code. The count begins again only if the code is another one.
    pub(crate) fn set_code(&mut self, code: u8) {
        if code != self.code {
            *self = Clock::with_code(code);
        }
    }

    // One cycle, given what RxC and TxC mark.
    pub(crate) fn cycle(&mut self, marks: Ticks) -> Ticks {
        let Some(countdown) = &mut self.countdown else {
            return marks;
        };
        let due = countdown.cycle();
        Ticks {
            receiver: due,
            transmitter: due,
        }
    }
}
