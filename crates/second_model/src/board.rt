// The board: the chip, and a line each way between its channels.

use super::chip::{Answer, Chip, Pins};
use super::clock::Ticks;
use super::delay::Delay;
use super::outcome::{Event, Refusal, SweepError};
use super::side::{Both, Side};

// The most cycles of a sweep.
const LONGEST: u32 = 2048;

// The board. Its chip can be used for accesses and modem levels.
#[derive(Drop)]
pub struct Board {
    pub chip: Chip,
    to_two: Delay,
    to_one: Delay,
}

impl Board {
    // A board with a newly reset chip. The first line goes from channel 1 to channel 2.
    pub fn new(to_two: Delay, to_one: Delay) -> Board {
        Board {
            chip: Chip::new(),
            to_two,
            to_one,
        }
    }

    // Set-up puts in another chip, with these values of CR and FR.
    pub fn set_up(&mut self, control: u8, format: u8) -> Result<(), Refusal> {
        if control >= 0x80 || control % 16 == 15 {
            return Err(Refusal::BadControl);
        }
        if format < 0x80 {
            return Err(Refusal::BadFormat);
        }
        if !self.to_two.is_quiet() || !self.to_one.is_quiet() {
            return Err(Refusal::LineNotQuiet);
        }
        self.chip = Chip::set_up(control, format);
        Ok(())
    }

    // One cycle.
    pub fn cycle(&mut self) -> Both<Answer> {
        let two = self.to_two.pass(self.chip.txd(Side::One));
        let one = self.to_one.pass(self.chip.txd(Side::Two));
        self.chip.cycle(Pins {
            rxd: Both { one, two },
            marks: Ticks::default(),
        })
    }

    // A sweep into room for this many records. The events of it are added to the log.
    pub fn sweep(
        &mut self,
        cycles: u32,
        room: usize,
        log: &mut Vec<Event>,
    ) -> Result<(), SweepError> {
        if !(1..=LONGEST).contains(&cycles) {
            return Err(Refusal::BadSweepLength.into());
        }
        // a cast, as `usize` has no `From<u32>`
        if room < 2 * cycles as usize {
            return Err(Refusal::TooFewRecords.into());
        }
        for cycle in 1..=cycles {
            let answers = self.cycle();
            for side in Side::BOTH {
                if let Some(report) = answers.at(side).report {
                    log.push(Event {
                        cycle,
                        side,
                        report,
                    })?;
                }
            }
        }
        Ok(())
    }
}
