// IER, the requests of the interrupt sources, and IRQ.
use crate::bench::*;
use crate::script::Step::*;
use crate::script::{play, play_at};
use std::test::*;
use terms::channel_id::ChannelId;
use terms::modem_line::ModemLine;
use terms::refusal::Refusal;

// What makes a source rise. An enum and no closures, since tests go through all of them and also name single ones.
#[derive(Clone, Copy)]
enum Cause {
    WordTaken,
    CtsChange,
    DcdChange,
    DsrChange,
    WrongParity,
    LowStopBit,
    Overrun,
    LineBreak,
    Word,
}

const CAUSES: [Cause; 9] = [
    Cause::WordTaken,
    Cause::CtsChange,
    Cause::DcdChange,
    Cause::DsrChange,
    Cause::WrongParity,
    Cause::LowStopBit,
    Cause::Overrun,
    Cause::LineBreak,
    Cause::Word,
];

// FR with eight bits and even parity.
const EVEN: u8 = 0xec;

impl Cause {
    // The sources that rise; a wrong parity, a framing error and an overrun come with a word.
    fn sources(self) -> u8 {
        match self {
            Cause::WordTaken => 0x40,
            Cause::CtsChange => 0x20,
            Cause::DcdChange => 0x10,
            Cause::DsrChange => 0x08,
            Cause::WrongParity => 0x05,
            Cause::LowStopBit | Cause::Overrun => 0x03,
            Cause::LineBreak => 0x02,
            Cause::Word => 0x01,
        }
    }

    // Makes it happen on a channel at `EVEN`.
    fn happen(self, bench: &mut Bench) -> Result<(), Refusal> {
        match self {
            Cause::WordTaken => {
                bench.write(TDR, 0x41)?;
                bench.tick();
            }
            Cause::CtsChange => bench.modem(ModemLine::Cts, HIGH),
            Cause::DcdChange => bench.modem(ModemLine::Dcd, HIGH),
            Cause::DsrChange => bench.modem(ModemLine::Dsr, HIGH),
            Cause::WrongParity => {
                bench.hears_bits(Bits(11, 0b0_10000010_1_1));
            }
            Cause::LowStopBit => {
                bench.hears_bits(Bits(11, 0b0_10000010_0_0));
            }
            Cause::Overrun => {
                bench.hears_bits(Bits(11, 0b0_10000010_0_1));
                bench.hears_bits(Bits(11, 0b0_10000010_0_1));
            }
            Cause::LineBreak => {
                bench.hear(LOW, 176);
            }
            Cause::Word => {
                bench.hears_bits(Bits(11, 0b0_10000010_0_1));
            }
        }
        Ok(())
    }
}

#[test]
fn a_source_requests_only_while_it_is_enabled(rt: HostRuntime) -> Result<(), Fail> {
    for channel in ChannelId::BOTH {
        for cause in CAUSES {
            for enabled in 0..128u8 {
                let mut bench = Bench::clocked(channel, EVEN)?;
                bench.write(IER, 0x80 | enabled)?;
                bench.irq_is(&rt, HIGH)?;
                cause.happen(&mut bench)?;
                bench.at = usize::from(enabled);
                bench.irq_is(&rt, enabled & cause.sources() == 0)?;
            }
        }
    }
    Ok(())
}

// Sources are enabled and disabled one by one, and the others stay as they were.
#[test]
fn ier_enables_and_disables_single_sources(rt: HostRuntime) -> Result<(), Fail> {
    for channel in ChannelId::BOTH {
        for cause in CAUSES {
            for disabled in 0..128u8 {
                let mut bench = Bench::clocked(channel, EVEN)?;
                for bit in [0x81, 0x82, 0x84, 0x88, 0x90, 0xa0, 0xc0] {
                    bench.write(IER, bit)?;
                }
                bench.write(IER, disabled)?;
                cause.happen(&mut bench)?;
                bench.at = usize::from(disabled);
                bench.irq_is(&rt, cause.sources() & !disabled == 0)?;
            }
        }
    }
    Ok(())
}

// Disabling a source drops its request for good.
#[test]
fn a_disabled_source_loses_its_request(rt: HostRuntime) -> Result<(), Fail> {
    for channel in ChannelId::BOTH {
        for cause in CAUSES {
            for disabled in 0..128u8 {
                let mut bench = Bench::clocked(channel, EVEN)?;
                bench.write(IER, 0xff)?;
                cause.happen(&mut bench)?;
                bench.irq_is(&rt, LOW)?;
                let all_dropped = cause.sources() & !disabled == 0;
                bench.write(IER, disabled)?;
                bench.at = usize::from(disabled);
                bench.irq_is(&rt, all_dropped)?;
                bench.write(IER, 0xff)?;
                bench.irq_is(&rt, all_dropped)?;
            }
        }
    }
    Ok(())
}

#[test]
fn a_source_that_is_set_already_makes_no_request(rt: HostRuntime) -> Result<(), Fail> {
    for channel in ChannelId::BOTH {
        for cause in CAUSES {
            let mut bench = Bench::clocked(channel, EVEN)?;
            cause.happen(&mut bench)?;
            bench.write(IER, 0xff)?;
            bench.irq_is(&rt, HIGH)?;
        }
    }
    // a second change of an input whose first one ISR still shows
    play_at(
        &rt,
        EVEN,
        &[
            Modem(ModemLine::Dcd, HIGH),
            Write(IER, 0xff),
            Modem(ModemLine::Dcd, LOW),
            Irq(HIGH),
            Read(ISR, 0xd0),
            Modem(ModemLine::Dcd, HIGH),
            Irq(LOW),
        ],
    )
}

// All requests go at once, and the sources stay but for the changes.
#[test]
fn a_read_of_isr_drops_every_request(rt: HostRuntime) -> Result<(), Fail> {
    for channel in ChannelId::BOTH {
        let mut bench = Bench::clocked(channel, EVEN)?;
        bench.write(IER, 0xff)?;
        for cause in [
            Cause::WordTaken,
            Cause::DcdChange,
            Cause::DsrChange,
            Cause::WrongParity,
            Cause::LineBreak,
        ] {
            cause.happen(&mut bench)?;
        }
        play(
            &rt,
            &mut bench,
            &[
                Irq(LOW),
                Read(CSR, 0x1c),
                Irq(LOW),
                Read(ISR, 0xdf),
                Irq(HIGH),
                Read(ISR, 0xc7),
                Irq(HIGH),
            ],
        )?;
    }
    Ok(())
}

// Each source alone: a read of ISR drops its request, and one of RDR if it clears the source.
#[test]
fn reads_drop_the_request_of_a_single_source(rt: HostRuntime) -> Result<(), Fail> {
    for channel in ChannelId::BOTH {
        for cause in CAUSES {
            let mut bench = Bench::clocked(channel, EVEN)?;
            bench.write(IER, 0xff)?;
            cause.happen(&mut bench)?;
            bench.read(CSR)?;
            bench.irq_is(&rt, LOW)?;
            bench.read(RDR)?;
            bench.irq_is(&rt, cause.sources() & 0x07 != 0)?;
            bench.read(ISR)?;
            bench.irq_is(&rt, HIGH)?;
        }
    }
    Ok(())
}

#[test]
fn tdre_requests_when_a_word_is_taken(rt: HostRuntime) -> Result<(), Fail> {
    play_at(
        &rt,
        0xe0,
        &[
            Write(IER, 0xc0),
            Write(TDR, 0x41),
            Irq(HIGH),
            Sends(LOW, 1),
            Irq(LOW),
            // the request stays while nothing drops it
            Sends(LOW, 15),
            Irq(LOW),
            // a full TDR drops it, and the next word taken raises it
            Write(TDR, 0x42),
            Irq(HIGH),
            SendsBits(Bits(9, 0b10000010_1)),
            Irq(HIGH),
            Sends(LOW, 1),
            Irq(LOW),
        ],
    )
}

#[test]
fn tdre_does_not_request_when_cts_falls(rt: HostRuntime) -> Result<(), Fail> {
    play_at(
        &rt,
        0xe0,
        &[
            Write(IER, 0xc0),
            Modem(ModemLine::Cts, HIGH),
            Modem(ModemLine::Cts, LOW),
            Irq(HIGH),
            Read(ISR, 0xe0),
            // a word that a high CTS holds back
            Modem(ModemLine::Cts, HIGH),
            Write(TDR, 0x41),
            Sends(HIGH, 100),
            Irq(HIGH),
            Modem(ModemLine::Cts, LOW),
            Irq(HIGH),
            Sends(LOW, 1),
            Irq(LOW),
            // a rising CTS drops the request, and its fall does not bring it back
            Modem(ModemLine::Cts, HIGH),
            Irq(HIGH),
            Modem(ModemLine::Cts, LOW),
            Irq(HIGH),
        ],
    )
}

// It clears RDRF and leaves PAR and F/O/B.
#[test]
fn a_write_to_cdr_drops_the_request_of_rdrf(rt: HostRuntime) -> Result<(), Fail> {
    for channel in ChannelId::BOTH {
        for cause in CAUSES {
            let mut bench = Bench::clocked(channel, EVEN)?;
            bench.write(IER, 0xff)?;
            cause.happen(&mut bench)?;
            bench.write(CDR, 0x00)?;
            bench.irq_is(&rt, cause.sources() == 0x01)?;
        }
    }
    Ok(())
}

// F/O/B is one source: it rises with the first of its flags, and a second one is no rise.
#[test]
fn an_overrun_requests_once(rt: HostRuntime) -> Result<(), Fail> {
    play_at(
        &rt,
        0xe0,
        &[
            Write(IER, 0x82),
            HearsWord(0x41),
            Kept(0x41),
            Irq(HIGH),
            HearsWord(0x42),
            Lost(0x42),
            Irq(LOW),
            Read(ISR, 0xc3),
            HearsWord(0x43),
            Lost(0x43),
            Hears(LOW, 160),
            Broken,
            Irq(HIGH),
            // a read of RDR clears the overrun and the break, so that the next one counts
            Fresh(0x41),
            Read(ISR, 0xc0),
            Hears(HIGH, 1),
            Hears(LOW, 160),
            Broken,
            Irq(LOW),
        ],
    )
}
