// What a reset clears and what it leaves.
use crate::bench::*;
use crate::script::Step::*;
use crate::script::play_at;
use std::test::*;
use terms::channel_id::ChannelId;
use terms::modem_line::ModemLine;

#[test]
fn a_reset_leaves_the_transmitter_and_tdr(rt: HostRuntime) -> Result<(), Fail> {
    play_at(
        &rt,
        0xe0,
        &[
            Write(TDR, 0x41),
            SendsBits(Bits(3, 0b0_10)),
            Write(TDR, 0x42),
            Sends(LOW, 5),
            Reset,
            Sends(LOW, 11),
            SendsBits(Bits(6, 0b00010_1)),
            Replaced(0x43),
            Reset,
            SendsWord(0x43),
            Sends(HIGH, 200),
            Stored(0x44),
        ],
    )
}

// A reset comes in each tick of a frame with $55, whose bits are low and high in turn.
#[test]
fn a_reset_leaves_a_frame_that_is_gathered(rt: HostRuntime) -> Result<(), Fail> {
    for channel in ChannelId::BOTH {
        for place in 0..153 {
            let mut bench = Bench::clocked(channel, 0xe0)?;
            for tick in 0..152 {
                if tick == place {
                    bench.reset();
                }
                bench.hear(tick / 16 % 2 == 1, 1);
            }
            if place == 152 {
                bench.reset();
            }
            assert_eq!(rt; bench.hear(HIGH, 1), kept(0x55), "{}", place);
        }
    }
    Ok(())
}

#[test]
fn a_reset_leaves_a_receiver_that_waits(rt: HostRuntime) -> Result<(), Fail> {
    play_at(
        &rt,
        0xe0,
        &[Hears(LOW, 160), Broken, Reset, Hears(LOW, 400), Silent],
    )
}

// RDRF stays set or clear, and RDR is 0.
#[test]
fn a_reset_leaves_rdrf_and_clears_rdr(rt: HostRuntime) -> Result<(), Fail> {
    play_at(
        &rt,
        0xe0,
        &[
            HearsWord(0x41),
            Kept(0x41),
            Reset,
            Read(ISR, 0xc1),
            HearsWord(0x42),
            Lost(0x42),
            Fresh(0x00),
            HearsWord(0x43),
            Kept(0x43),
            Fresh(0x43),
            Reset,
            Read(ISR, 0xc0),
            Old(0x00),
        ],
    )
}

#[test]
fn a_reset_leaves_the_modem_levels_and_clears_their_changes(rt: HostRuntime) -> Result<(), Fail> {
    for (line, isr, csr) in [
        (ModemLine::Cts, 0x80, 0x23),
        (ModemLine::Dcd, 0xc0, 0x53),
        (ModemLine::Dsr, 0xc0, 0x4b),
    ] {
        play_at(
            &rt,
            0xe0,
            &[
                Write(IER, 0xff),
                Modem(line, HIGH),
                Irq(LOW),
                Reset,
                Irq(HIGH),
                Read(ISR, isr),
                Read(CSR, csr),
            ],
        )?;
    }
    Ok(())
}

// Six cycles to a tick, with a reset before each of them.
#[test]
fn a_reset_leaves_the_count(rt: HostRuntime) -> Result<(), Fail> {
    for channel in ChannelId::BOTH {
        for place in 0..6 {
            let mut bench = Bench::new(channel);
            bench.write(CR, 0x0e)?;
            bench.write(TDR, 0x01)?;
            for cycle in 0..6 {
                if cycle == place {
                    bench.reset();
                }
                assert_eq!(rt; bench.cycle(HIGH, UNMARKED).txd, cycle < 5, "{}", place);
            }
        }
    }
    Ok(())
}

// CR keeps its rate code and bits 4, 5 and 6, and FR its bits 6-2.
#[test]
fn a_reset_leaves_the_format_and_the_rate(rt: HostRuntime) -> Result<(), Fail> {
    play_at(
        &rt,
        0xc4,
        &[
            Write(CR, 0x7f),
            Read(CSR, 0x40),
            Reset,
            Read(CSR, 0x43),
            // rate code 15, seven bits, odd parity, two stop bits
            Write(TDR, 0x41),
            SendsBits(Bits(11, 0b0_1000001_1_11)),
            Write(TDR, 0x41),
            SendsBits(Bits(1, 0b0)),
            // bit 4
            Modem(ModemLine::Cts, HIGH),
            Read(ISR, 0xa0),
            Read(ISR, 0x00),
            // bit 6: ACR is written, and the receiver does not sleep
            Write(ACR, 0x00),
            HearsBits(Bits(10, 0b0_1000001_1_1)),
            Kept(0x41),
        ],
    )
}

#[test]
fn a_reset_clears_ier(rt: HostRuntime) -> Result<(), Fail> {
    play_at(
        &rt,
        0xe0,
        &[
            Write(IER, 0xff),
            HearsWord(0x41),
            Irq(LOW),
            Reset,
            Irq(HIGH),
            // an event of each source but PAR
            Write(TDR, 0x41),
            Sends(LOW, 1),
            Modem(ModemLine::Cts, HIGH),
            Modem(ModemLine::Dcd, HIGH),
            Modem(ModemLine::Dsr, HIGH),
            HearsWord(0x42),
            Lost(0x42),
            Irq(HIGH),
            Fresh(0x00),
            HearsWord(0x43),
            Kept(0x43),
            Irq(HIGH),
        ],
    )
}

// ACR: a break ends with its frame, and PAR is a wrong parity bit again.
#[test]
fn a_reset_clears_acr(rt: HostRuntime) -> Result<(), Fail> {
    play_at(
        &rt,
        0xe4,
        &[
            Write(CR, 0x4f),
            Write(ACR, 0x03),
            Sends(LOW, 10),
            Reset,
            Sends(LOW, 166),
            Sends(HIGH, 100),
            // odd parity: 1 is right for $41
            HearsBits(Bits(11, 0b0_10000010_1_1)),
            Kept(0x41),
            Read(ISR, 0xc1),
        ],
    )
}

// PAR, FE, BRK and OVR.
#[test]
fn a_reset_clears_the_errors(rt: HostRuntime) -> Result<(), Fail> {
    play_at(
        &rt,
        0xec,
        &[
            HearsBits(Bits(11, 0b0_10000010_1_0)),
            Kept(0x41),
            Hears(HIGH, 1),
            Hears(LOW, 176),
            Broken,
            Read(ISR, 0xc7),
            Read(CSR, 0xc4),
            Reset,
            Read(ISR, 0xc1),
            Read(CSR, 0x43),
            Hears(HIGH, 1),
            HearsBits(Bits(11, 0b0_10000010_0_1)),
            Lost(0x41),
            Read(ISR, 0xc3),
            Reset,
            Read(ISR, 0xc1),
        ],
    )
}

#[test]
fn a_reset_wakes_the_receiver(rt: HostRuntime) -> Result<(), Fail> {
    play_at(
        &rt,
        0xe0,
        &[
            Write(CDR, 0x41),
            HearsWord(0x10),
            Passed(0x10),
            Reset,
            HearsWord(0x11),
            Kept(0x11),
        ],
    )
}
