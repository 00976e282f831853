// The second model as it is played on: its answers in the words of the first.

use crate::answer::Levels;
use crate::channels::each;
use crate::played::{Played, Second};
use board::record::Record;
use channel::channel::ChannelAnswer;
use dacia::chip::{ChipAnswer, Inputs};
use second_model::{
    Access, Answer, Board, Both, Chip, Event, Input, Pins, Side, SweepError, Ticks,
};
use std::alloc::{AllocError, Global};
use terms::channel_id::ChannelId;
use terms::channels::Channels;
use terms::modem_line::ModemLine;
use terms::note::{ReadNote, Reading, WriteNote};
use terms::refusal::Refusal;
use terms::report::{Report, ReportKind};

impl Played for Chip {
    const ALONE: bool = true;

    fn read(&mut self, select: u8) -> Result<Reading, Refusal> {
        let access = Access::open(select).map_err(refusal)?;
        Chip::read(self, access).map(reading).map_err(refusal)
    }

    fn write(&mut self, select: u8, byte: u8) -> Result<Option<WriteNote>, Refusal> {
        let access = Access::open(select).map_err(refusal)?;
        Ok(Chip::write(self, access, byte).map(write_note))
    }

    fn set_modem(&mut self, channel: ChannelId, line: ModemLine, level: bool) {
        self.modem(side(channel), input(line), level);
    }

    fn cycle(&mut self, inputs: Inputs) -> ChipAnswer {
        chip_answer(Chip::cycle(
            self,
            Pins {
                rxd: Both {
                    one: inputs.rxd.one,
                    two: inputs.rxd.two,
                },
                marks: Ticks {
                    receiver: inputs.marks.rxc,
                    transmitter: inputs.marks.txc,
                },
            },
        ))
    }

    fn levels(&self) -> Levels {
        Levels {
            irq: irq(self),
            txd: Some(txd(self)),
        }
    }

    fn reset(&mut self) {
        Chip::reset(self)
    }
}

impl Second for Chip {
    fn chip(&self) -> &Chip {
        self
    }
}

impl Played for Board {
    const ALONE: bool = false;

    fn read(&mut self, select: u8) -> Result<Reading, Refusal> {
        Played::read(&mut self.chip, select)
    }

    fn write(&mut self, select: u8, byte: u8) -> Result<Option<WriteNote>, Refusal> {
        Played::write(&mut self.chip, select, byte)
    }

    fn set_modem(&mut self, channel: ChannelId, line: ModemLine, level: bool) {
        self.chip.set_modem(channel, line, level);
    }

    fn cycle(&mut self, _inputs: Inputs) -> ChipAnswer {
        chip_answer(Board::cycle(self))
    }

    fn levels(&self) -> Levels {
        Levels {
            irq: irq(&self.chip),
            txd: None,
        }
    }

    fn set_up(&mut self, cr: u8, fr: u8) -> Result<(), Refusal> {
        Board::set_up(self, cr, fr).map_err(refusal)
    }

    fn sweep(
        &mut self,
        heap: Global,
        cycles: u16,
        records: &mut [Record],
    ) -> Result<Result<usize, Refusal>, AllocError> {
        let mut log = Vec::new(heap);
        match Board::sweep(self, u32::from(cycles), records.len(), &mut log) {
            Ok(()) => {}
            Err(SweepError::Refused(why)) => return Ok(Err(refusal(why))),
            Err(SweepError::OutOfMemory(error)) => return Err(error),
        }
        for (place, event) in records.iter_mut().zip(&log) {
            *place = record(*event);
        }
        Ok(Ok(log.len()))
    }
}

impl Second for Board {
    fn chip(&self) -> &Chip {
        &self.chip
    }
}

// The levels of IRQ.
fn irq(chip: &Chip) -> Channels<bool> {
    each(|channel| chip.irq(side(channel)))
}

// The levels of TxD.
pub(crate) fn txd(chip: &Chip) -> Channels<bool> {
    each(|channel| chip.txd(side(channel)))
}

// The rest turns words of the one model into words of the other: by functions and not by `From`, since all these types
// are of other crates.

pub(crate) fn side(channel: ChannelId) -> Side {
    match channel {
        ChannelId::One => Side::One,
        ChannelId::Two => Side::Two,
    }
}

fn input(line: ModemLine) -> Input {
    match line {
        ModemLine::Cts => Input::Cts,
        ModemLine::Dcd => Input::Dcd,
        ModemLine::Dsr => Input::Dsr,
    }
}

fn refusal(refusal: second_model::Refusal) -> Refusal {
    match refusal {
        second_model::Refusal::NoSuchSelect => Refusal::NoSuchSelect,
        second_model::Refusal::NothingToRead => Refusal::NothingToRead,
        second_model::Refusal::BadControl => Refusal::BadControl,
        second_model::Refusal::BadFormat => Refusal::BadFormat,
        second_model::Refusal::LineNotQuiet => Refusal::LineNotQuiet,
        second_model::Refusal::BadSweepLength => Refusal::BadSweepLength,
        second_model::Refusal::TooFewRecords => Refusal::TooFewRecords,
    }
}

fn reading(read: second_model::ReadOut) -> Reading {
    Reading {
        byte: read.byte,
        note: read.note.map(read_note),
    }
}

fn read_note(note: second_model::ReadNote) -> ReadNote {
    match note {
        second_model::ReadNote::Fresh => ReadNote::Fresh,
        second_model::ReadNote::Old => ReadNote::Old,
    }
}

fn write_note(note: second_model::WriteNote) -> WriteNote {
    match note {
        second_model::WriteNote::Stored => WriteNote::Stored,
        second_model::WriteNote::Replaced => WriteNote::Replaced,
    }
}

// A break has no word; the first model says 0.
fn report(report: second_model::Report) -> Report {
    let (kind, word) = match report {
        second_model::Report::Break => (ReportKind::Break, 0),
        second_model::Report::Passed(word) => (ReportKind::Passed, word),
        second_model::Report::Lost(word) => (ReportKind::Lost, word),
        second_model::Report::Kept(word) => (ReportKind::Kept, word),
    };
    Report { kind, word }
}

fn chip_answer(answers: Both<Answer>) -> ChipAnswer {
    ChipAnswer {
        one: channel_answer(answers.one),
        two: channel_answer(answers.two),
    }
}

fn channel_answer(answer: Answer) -> ChannelAnswer {
    ChannelAnswer {
        txd: answer.txd,
        irq: answer.irq,
        report: answer.report.map(report),
    }
}

fn record(event: Event) -> Record {
    let Report { kind, word } = report(event.report);
    Record {
        cycle: u16::try_from(event.cycle).unwrap_or(u16::MAX),
        channel: match event.side {
            Side::One => ChannelId::One,
            Side::Two => ChannelId::Two,
        },
        kind,
        word,
    }
}
