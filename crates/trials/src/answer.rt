// What the models answer and show, as it is compared and printed. A reset and a modem level answer nothing.

use crate::channels::Channels;
use board::record::Record;
use channel::channel::ChannelAnswer;
use std::fmt;
use terms::channel_id::ChannelId;
use terms::note::{Reading, WriteNote};
use terms::refusal::Refusal;
use terms::report::Report;

#[derive(Clone, Copy, PartialEq, Eq, Debug)]
pub(crate) enum Answer {
    Read(Result<Reading, Refusal>),
    Write(Result<Option<WriteNote>, Refusal>),
    SetUp(Result<(), Refusal>),
    // the number of records
    Sweep(Result<usize, Refusal>),
    // a record that a sweep has written or left alone
    Record(Record),
    // of a channel in a cycle
    Cycle(ChannelId, ChannelAnswer),
    Levels(Levels),
}

// The levels that can be asked for: IRQ of a board, IRQ and TxD of a chip alone.
#[derive(Clone, Copy, PartialEq, Eq, Debug)]
pub(crate) struct Levels {
    pub(crate) irq: Channels<bool>,
    pub(crate) txd: Option<Channels<bool>>,
}

impl Answer {
    pub(crate) fn refusal(self) -> Option<Refusal> {
        match self {
            Answer::Read(answer) => answer.err(),
            Answer::Write(answer) => answer.err(),
            Answer::SetUp(answer) => answer.err(),
            Answer::Sweep(answer) => answer.err(),
            _ => None,
        }
    }

    // What it is an answer of.
    pub(crate) fn subject(self) -> &'static str {
        match self {
            Answer::Cycle(ChannelId::One, _) => "channel 1 in a cycle",
            Answer::Cycle(ChannelId::Two, _) => "channel 2 in a cycle",
            Answer::Levels(_) => "the levels",
            Answer::Record(_) => "a record of the sweep",
            _ => "the answer",
        }
    }
}

pub(crate) fn level(high: bool) -> &'static str {
    if high { "high" } else { "low" }
}

impl fmt::Display for Answer {
    fn fmt<W: fmt::Write>(&self, f: &mut fmt::Formatter<W>) -> fmt::Result {
        if let Some(refusal) = self.refusal() {
            return write!(f, "{refusal}");
        }
        match self {
            Answer::Read(Ok(Reading { byte, note })) => {
                write!(f, "${byte:02X}, ")?;
                write_note(f, *note)
            }
            Answer::Write(Ok(note)) => write_note(f, *note),
            Answer::Sweep(Ok(count)) => write!(f, "{count} records"),
            Answer::Record(record) => write_record(f, *record),
            Answer::Cycle(_, answer) => write_cycle(f, *answer),
            Answer::Levels(levels) => write!(f, "{levels}"),
            // a set-up that is accepted
            _ => f.write_str("done"),
        }
    }
}

// Notes, records and answers of cycles are types of other crates, so that functions print them here and no `Display`.

fn write_note<N: fmt::Display + Copy, W: fmt::Write>(
    f: &mut fmt::Formatter<W>,
    note: Option<N>,
) -> fmt::Result {
    match note {
        Some(note) => write!(f, "note {note}"),
        None => f.write_str("no note"),
    }
}

fn write_record<W: fmt::Write>(f: &mut fmt::Formatter<W>, record: Record) -> fmt::Result {
    let Record {
        cycle,
        channel,
        kind,
        word,
    } = record;
    write!(
        f,
        "{kind} ${word:02X} on channel {} in cycle {cycle}",
        channel.number()
    )
}

fn write_cycle<W: fmt::Write>(f: &mut fmt::Formatter<W>, answer: ChannelAnswer) -> fmt::Result {
    write!(f, "TxD {}, IRQ {}, ", level(answer.txd), level(answer.irq))?;
    match answer.report {
        Some(Report { kind, word }) => write!(f, "{kind} ${word:02X}"),
        None => f.write_str("no report"),
    }
}

impl fmt::Display for Levels {
    fn fmt<W: fmt::Write>(&self, f: &mut fmt::Formatter<W>) -> fmt::Result {
        let Channels { one, two } = self.irq;
        write!(f, "IRQ1 {}, IRQ2 {}", level(one), level(two))?;
        if let Some(Channels { one, two }) = self.txd {
            write!(f, ", TxD1 {}, TxD2 {}", level(one), level(two))?;
        }
        Ok(())
    }
}
