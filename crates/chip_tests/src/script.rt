// Tests as scripts: steps that are done to a channel, and between them what it must answer.
// The steps are an enum, so that a script is a list to read; closures in their place would have to name the bench in each.
use crate::bench::*;
use std::process::Abort;
use std::test::*;
use terms::channel_id::ChannelId;
use terms::modem_line::ModemLine;
use terms::note::{ReadNote, WriteNote};
use terms::register::Register;
use terms::report::{Report, ReportKind};

#[derive(Clone, Copy)]
pub(crate) enum Step {
    Write(Register, u8),
    // a write to TDR, with its note
    Stored(u8),
    Replaced(u8),
    // a read of ISR or CSR
    Read(Register, u8),
    // a read of RDR, with its note
    Fresh(u8),
    Old(u8),
    Modem(ModemLine, bool),
    Reset,
    Irq(bool),
    // a level on RxD for so many receiver ticks; so many bits; a word in a plain frame
    Hears(bool, u16),
    HearsBits(Bits),
    HearsWord(u8),
    // how the last one was reported
    Kept(u8),
    Lost(u8),
    Passed(u8),
    Broken,
    Silent,
    // a level on TxD for so many transmitter ticks; so many bits; a word in a plain frame
    Sends(bool, u16),
    SendsBits(Bits),
    SendsWord(u8),
}

// Takes a step, with what was reported last; answers what is now.
fn take(
    rt: &impl Abort,
    bench: &mut Bench,
    heard: Option<Report>,
    step: Step,
) -> Result<Option<Report>, Fail> {
    let due = match step {
        Step::Hears(level, ticks) => return Ok(bench.hear(level, ticks)),
        Step::HearsBits(bits) => return Ok(bench.hears_bits(bits)),
        Step::HearsWord(word) => return Ok(bench.hears_word(word)),
        Step::Kept(word) => ended(ReportKind::Kept, word),
        Step::Lost(word) => ended(ReportKind::Lost, word),
        Step::Passed(word) => ended(ReportKind::Passed, word),
        Step::Broken => ended(ReportKind::Break, 0),
        Step::Silent => None,
        _ => {
            access(rt, bench, step)?;
            return Ok(heard);
        }
    };
    assert_eq!(rt;
        heard,
        due,
        "channel {} at {}",
        bench.channel.number(),
        bench.at
    );
    Ok(heard)
}

// The steps that have nothing to do with RxD.
fn access(rt: &impl Abort, bench: &mut Bench, step: Step) -> Result<(), Fail> {
    match step {
        Step::Write(register, byte) => {
            bench.write(register, byte)?;
        }
        Step::Stored(word) => return bench.tdr_notes(rt, word, WriteNote::Stored),
        Step::Replaced(word) => return bench.tdr_notes(rt, word, WriteNote::Replaced),
        Step::Read(register, byte) => {
            assert_eq!(rt;
                bench.read(register)?.byte,
                byte,
                "channel {} at {}",
                bench.channel.number(),
                bench.at
            );
        }
        Step::Fresh(word) => return bench.rdr_is(rt, word, ReadNote::Fresh),
        Step::Old(word) => return bench.rdr_is(rt, word, ReadNote::Old),
        Step::Modem(line, level) => bench.modem(line, level),
        Step::Reset => bench.reset(),
        Step::Irq(level) => return bench.irq_is(rt, level),
        Step::Sends(level, ticks) => return bench.sends_level(rt, level, ticks),
        Step::SendsBits(bits) => return bench.sends_bits(rt, bits),
        Step::SendsWord(word) => return bench.sends_frame(rt, plain(word)),
        _ => {}
    }
    Ok(())
}

pub(crate) fn play(rt: &impl Abort, bench: &mut Bench, steps: &[Step]) -> Result<(), Fail> {
    let mut heard = None;
    for (place, next) in steps.iter().enumerate() {
        bench.at = place;
        heard = take(rt, bench, heard, *next)?;
    }
    Ok(())
}

// Plays a script on each channel of a chip, with rate code 15 and the given FR.
pub(crate) fn play_at(rt: &impl Abort, fr: u8, steps: &[Step]) -> Result<(), Fail> {
    for channel in ChannelId::BOTH {
        let mut bench = Bench::clocked(channel, fr)?;
        play(rt, &mut bench, steps)?;
    }
    Ok(())
}
