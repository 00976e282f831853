// How often each thing was seen.

use crate::answer::Answer;
use crate::call::Call;
use crate::counted::{CHANGES, EVENTS, Event};
use crate::state::{State, Step};
use dacia::access::Place;
use terms::channel_id::ChannelId;
use terms::channels::Channels;
use terms::register::Register;
use terms::report::{Report, ReportKind};

// How often the thing of a name was seen.
#[derive(Clone, Copy, PartialEq, Eq, Debug)]
pub(crate) struct Count {
    pub(crate) name: &'static str,
    pub(crate) times: u64,
}

// How often a fact of a channel has begun, and how often it has ended.
#[derive(Clone, Copy, PartialEq, Eq, Debug)]
struct Change {
    fact: State,
    begins: Count,
    ends: Count,
}

#[derive(Clone, Copy, PartialEq, Eq, Debug)]
struct Seen {
    event: Event,
    count: Count,
}

// The counts are lists and no maps, as the table has an order of its own.
#[derive(Drop)]
pub(crate) struct Counts {
    changes: [Change; 26],
    events: [Seen; 42],
    pub(crate) chip_calls: u64,
    pub(crate) board_calls: u64,
}

impl Count {
    fn new(name: &'static str) -> Count {
        Count { name, times: 0 }
    }

    fn add(&mut self) {
        self.times = self.times.saturating_add(1);
    }
}

impl Counts {
    pub(crate) fn new() -> Counts {
        Counts {
            changes: CHANGES.map(|(fact, begins, ends)| Change {
                fact,
                begins: Count::new(begins),
                ends: Count::new(ends),
            }),
            events: EVENTS.map(|(event, name)| Seen {
                event,
                count: Count::new(name),
            }),
            chip_calls: 0,
            board_calls: 0,
        }
    }

    // Counts a call of a chip alone or of a board.
    pub(crate) fn made(&mut self, alone: bool) {
        let calls = if alone {
            &mut self.chip_calls
        } else {
            &mut self.board_calls
        };
        *calls = calls.saturating_add(1);
    }

    fn add(&mut self, event: Event) {
        if let Some(seen) = self.events.iter_mut().find(|seen| seen.event == event) {
            seen.count.add();
        }
    }

    // Counts an event if it happened.
    pub(crate) fn see(&mut self, event: Event, happened: bool) {
        if happened {
            self.add(event);
        }
    }

    // Counts what has changed in a channel.
    fn change(&mut self, step: Step) {
        let begun = step.begun();
        let ended = step.ended();
        for change in &mut self.changes {
            if begun.contains(change.fact) {
                change.begins.add();
            }
            if ended.contains(change.fact) {
                change.ends.add();
            }
        }
        self.see(
            Event::FalseStart,
            begun.union(ended).contains(State::FALSE_START),
        );
    }

    // Counts a cycle of a channel: its report, and the states before it and after it.
    pub(crate) fn cycle(&mut self, channel: ChannelId, report: Option<Report>, step: Step) {
        self.change(step);
        if let Some(Report { kind, word: _ }) = report {
            self.add(Event::Report(channel, kind));
            self.ending(kind, step);
        }
    }

    // Counts the rare cases of an ending.
    fn ending(&mut self, kind: ReportKind, step: Step) {
        let Step { was, is } = step;
        let broken = kind == ReportKind::Break;
        let passed = kind == ReportKind::Passed;
        let kept = kind == ReportKind::Kept;
        let cleared = step.ended();
        let shows = was.contains(State::SHOWS_PARITY);
        let parity = is.contains(State::PAR);
        self.see(Event::BreakAsleep, broken && was.contains(State::ASLEEP));
        self.see(Event::BreakWhileFull, broken && was.contains(State::RDRF));
        self.see(
            Event::PassedWithLowStop,
            passed && is.contains(State::WAITS),
        );
        self.see(Event::PassedAndWakes, passed && !is.contains(State::ASLEEP));
        self.see(Event::KeptWithLowStop, kept && is.contains(State::FE));
        self.see(
            Event::KeptClearsParity,
            kept && cleared.contains(State::PAR),
        );
        self.see(Event::KeptClearsFault, kept && cleared.contains(State::FOB));
        self.see(Event::WrongParityBit, kept && !shows && parity);
        self.see(Event::ShownParityBit, kept && shows && parity);
        self.see(Event::ShownParityZero, kept && shows && !parity);
    }

    // Counts a call: its answer, and the states before it and after it. A call is a case and no closure, as where it is played.
    pub(crate) fn call(&mut self, call: Call, answer: Option<Answer>, steps: Channels<Step>) {
        let either = steps.one.was.union(steps.two.was);
        if let Some(refusal) = answer.and_then(Answer::refusal) {
            self.add(Event::Refusal(refusal));
        }
        match (call, answer) {
            (Call::Read(_), Some(Answer::Read(Ok(reading)))) => {
                if let Some(note) = reading.note {
                    self.add(Event::Read(note));
                }
            }
            (Call::Write(select, _), Some(Answer::Write(Ok(note)))) => {
                if let Some(note) = note {
                    self.add(Event::Written(note));
                }
                self.setting(select, steps);
            }
            (Call::Held(held), _) => self.see(Event::HeldAccess, held.span > 0),
            (Call::Reset, _) => {
                self.see(Event::ResetWhileSending, either.contains(State::SENDS));
                self.see(Event::ResetWhileBreaking, either.contains(State::BREAKS));
                self.see(Event::ResetWhileGathering, either.contains(State::GATHERS));
            }
            (Call::Modem(channel, _, _), _) => {
                let begun = steps.at(channel).begun();
                self.see(Event::CtsFall, begun.contains(State::TDRE));
            }
            (Call::SetUp(_, _), Some(Answer::SetUp(Ok(())))) => {
                self.add(Event::SetUp);
                self.see(Event::SetUpWhileSending, either.contains(State::SENDS));
            }
            (Call::Sweep { .. }, Some(Answer::Sweep(Ok(_)))) => self.add(Event::Sweep),
            _ => {}
        }
        // a set-up puts in another chip, which has not changed
        if !matches!(call, Call::SetUp(_, _)) {
            self.change(steps.one);
            self.change(steps.two);
        }
    }

    // Counts a write to CR, FR, CDR or ACR in the middle of a frame.
    fn setting(&mut self, select: u8, steps: Channels<Step>) {
        let Ok(Place { channel, register }) = Place::try_from(select) else {
            return;
        };
        let was = steps.at(channel).was;
        let sends = was.contains(State::SENDS);
        let gathers = was.contains(State::GATHERS);
        match register {
            Register::Control => {
                self.see(Event::SettingWhileSending, sends);
                self.see(Event::SettingWhileGathering, gathers);
            }
            Register::Auxiliary => self.see(Event::AuxiliaryWhileGathering, gathers),
            Register::Interrupt | Register::Data => {}
        }
    }

    // All counts, in the order in which they are printed. An array, since a list would ask for memory once all is played.
    pub(crate) fn table(&self) -> [Count; 94] {
        let counts = self
            .changes
            .iter()
            .flat_map(|change| [change.begins, change.ends])
            .chain(self.events.iter().map(|seen| seen.count));
        let mut table = [Count::new(""); 94];
        for (place, count) in table.iter_mut().zip(counts) {
            *place = count;
        }
        table
    }
}
