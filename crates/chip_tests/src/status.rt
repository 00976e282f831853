// The bits of ISR and CSR, each set and clear.
use crate::bench::*;
use crate::script::Step::*;
use crate::script::play_at;
use std::test::*;
use terms::channel_id::ChannelId;
use terms::modem_line::ModemLine;

#[test]
fn isr_bit_7_is_set_by_a_high_cts_unless_cr_bit_4_is(rt: HostRuntime) -> Result<(), Fail> {
    play_at(
        &rt,
        0xe0,
        &[
            Modem(ModemLine::Cts, HIGH),
            Read(ISR, 0xa0),
            Read(ISR, 0x80),
            Write(CR, 0x1f),
            Read(ISR, 0x00),
            Write(CR, 0x0f),
            Read(ISR, 0x80),
            // nothing else is set, and CTS is low
            Write(TDR, 0x00),
            Modem(ModemLine::Cts, LOW),
            Read(ISR, 0xa0),
            Read(ISR, 0x00),
            // any other bit sets it, whatever CR bit 4 is
            Write(CR, 0x1f),
            Modem(ModemLine::Dsr, HIGH),
            Read(ISR, 0x88),
            Read(ISR, 0x00),
        ],
    )
}

#[test]
fn isr_bit_6_is_tdr_empty_and_cts_low(rt: HostRuntime) -> Result<(), Fail> {
    play_at(
        &rt,
        0xe0,
        &[
            Read(ISR, 0xc0),
            Write(TDR, 0x41),
            Read(ISR, 0x00),
            Sends(LOW, 1),
            Read(ISR, 0xc0),
            Modem(ModemLine::Cts, HIGH),
            Read(ISR, 0xa0),
            Modem(ModemLine::Cts, LOW),
            Read(ISR, 0xe0),
            Read(ISR, 0xc0),
            // a full TDR under a high CTS
            Modem(ModemLine::Cts, HIGH),
            Write(TDR, 0x42),
            Read(ISR, 0xa0),
            Read(ISR, 0x80),
        ],
    )
}

// A modem input with ISR and CSR while it is high, with ISR once its change was seen, and with ISR after it went low.
#[derive(Clone, Copy)]
struct ModemCase {
    line: ModemLine,
    csr_high: u8,
    isr_high: u8,
    isr_seen: u8,
    isr_low: u8,
}

// A high CTS takes TDRE from ISR and TUR from CSR.
const MODEM_CASES: [ModemCase; 3] = [
    ModemCase {
        line: ModemLine::Cts,
        csr_high: 0x20,
        isr_high: 0xa0,
        isr_seen: 0x80,
        isr_low: 0xe0,
    },
    ModemCase {
        line: ModemLine::Dcd,
        csr_high: 0x50,
        isr_high: 0xd0,
        isr_seen: 0xc0,
        isr_low: 0xd0,
    },
    ModemCase {
        line: ModemLine::Dsr,
        csr_high: 0x48,
        isr_high: 0xc8,
        isr_seen: 0xc0,
        isr_low: 0xc8,
    },
];

#[test]
fn modem_levels_show_in_csr_and_their_changes_in_isr(rt: HostRuntime) -> Result<(), Fail> {
    for case in MODEM_CASES {
        play_at(
            &rt,
            0xe0,
            &[
                // the level that is stored already changes nothing
                Modem(case.line, LOW),
                Read(ISR, 0xc0),
                Read(CSR, 0x40),
                Modem(case.line, HIGH),
                Read(CSR, case.csr_high),
                Read(ISR, case.isr_high),
                Modem(case.line, HIGH),
                Read(CSR, case.csr_high),
                Read(ISR, case.isr_seen),
                Modem(case.line, LOW),
                Read(CSR, 0x40),
                Read(ISR, case.isr_low),
                Read(ISR, 0xc0),
                // there and back is a change too
                Modem(case.line, HIGH),
                Modem(case.line, LOW),
                Read(ISR, case.isr_low),
            ],
        )?;
    }
    Ok(())
}

#[test]
fn isr_bit_2_is_a_wrong_parity(rt: HostRuntime) -> Result<(), Fail> {
    // even parity: 0 is right for $41
    play_at(
        &rt,
        0xec,
        &[
            HearsBits(Bits(11, 0b0_10000010_0_1)),
            Kept(0x41),
            Read(ISR, 0xc1),
            Fresh(0x41),
            HearsBits(Bits(11, 0b0_10000010_1_1)),
            Kept(0x41),
            // a read of ISR leaves it, a read of RDR clears it
            Read(ISR, 0xc5),
            Read(ISR, 0xc5),
            Fresh(0x41),
            Read(ISR, 0xc0),
            // a lost word does not touch it
            HearsBits(Bits(11, 0b0_10000010_0_1)),
            Kept(0x41),
            HearsBits(Bits(11, 0b0_10000010_1_1)),
            Lost(0x41),
            Read(ISR, 0xc3),
        ],
    )
}

#[test]
fn isr_bit_1_and_csr_bit_7_are_a_framing_error(rt: HostRuntime) -> Result<(), Fail> {
    play_at(
        &rt,
        0xe0,
        &[
            HearsBits(Bits(10, 0b0_10000010_0)),
            Kept(0x41),
            Read(ISR, 0xc3),
            Read(CSR, 0xc0),
            // reads of ISR and CSR leave it, a read of RDR clears it
            Read(ISR, 0xc3),
            Read(CSR, 0xc0),
            Fresh(0x41),
            Read(ISR, 0xc0),
            Read(CSR, 0x40),
            // so does the next word that is kept
            Hears(HIGH, 1),
            HearsBits(Bits(10, 0b0_10000010_0)),
            Kept(0x41),
            Write(CDR, 0x42),
            Read(CSR, 0xc0),
            Hears(HIGH, 1),
            HearsWord(0x42),
            Passed(0x42),
            Read(CSR, 0xc0),
            HearsWord(0x43),
            Kept(0x43),
            Read(CSR, 0x40),
        ],
    )
}

#[test]
fn isr_bit_1_and_csr_bit_2_are_a_break(rt: HostRuntime) -> Result<(), Fail> {
    play_at(
        &rt,
        0xe0,
        &[
            Hears(LOW, 160),
            Broken,
            Read(ISR, 0xc2),
            Read(CSR, 0x44),
            // a word that is kept leaves it, a read of RDR clears it
            Hears(HIGH, 1),
            HearsWord(0x41),
            Kept(0x41),
            Read(ISR, 0xc3),
            Read(CSR, 0x44),
            Fresh(0x41),
            Read(ISR, 0xc0),
            Read(CSR, 0x40),
        ],
    )
}

#[test]
fn isr_bit_1_is_an_overrun_that_csr_does_not_show(rt: HostRuntime) -> Result<(), Fail> {
    play_at(
        &rt,
        0xe0,
        &[
            HearsWord(0x41),
            Kept(0x41),
            Read(ISR, 0xc1),
            HearsWord(0x42),
            Lost(0x42),
            Read(ISR, 0xc3),
            Read(CSR, 0x40),
            Read(ISR, 0xc3),
            Fresh(0x41),
            Read(ISR, 0xc0),
            // CDR clears RDRF and leaves the overrun
            HearsWord(0x41),
            HearsWord(0x42),
            Lost(0x42),
            Write(CDR, 0x00),
            Read(ISR, 0xc2),
        ],
    )
}

#[test]
fn isr_bit_0_is_a_word_to_read(rt: HostRuntime) -> Result<(), Fail> {
    play_at(
        &rt,
        0xe0,
        &[
            Read(ISR, 0xc0),
            HearsWord(0x41),
            Kept(0x41),
            // a read of ISR leaves it
            Read(ISR, 0xc1),
            Read(ISR, 0xc1),
            Fresh(0x41),
            Read(ISR, 0xc0),
            // a write to CDR clears it as a read of RDR does
            HearsWord(0x42),
            Kept(0x42),
            Write(CDR, 0x00),
            Read(ISR, 0xc0),
            Old(0x42),
        ],
    )
}

// TUR: TDRE, and the transmitter neither sends nor breaks.
#[test]
fn csr_bit_6_is_tdre_with_a_resting_transmitter(rt: HostRuntime) -> Result<(), Fail> {
    play_at(
        &rt,
        0xe0,
        &[
            Read(CSR, 0x40),
            Write(TDR, 0x41),
            Read(CSR, 0x00),
            SendsWord(0x41),
            Read(CSR, 0x00),
            Read(ISR, 0xc0),
            Sends(HIGH, 1),
            Read(CSR, 0x40),
            Write(CR, 0x4f),
            Write(ACR, 0x02),
            Read(CSR, 0x40),
            Sends(LOW, 1),
            Read(CSR, 0x00),
            Write(ACR, 0x00),
            Sends(LOW, 159),
            Read(CSR, 0x00),
            Sends(HIGH, 1),
            Read(CSR, 0x40),
        ],
    )
}

#[test]
fn csr_bits_1_and_0_are_those_of_fr(rt: HostRuntime) -> Result<(), Fail> {
    for channel in ChannelId::BOTH {
        let mut bench = Bench::clocked(channel, 0xe0)?;
        for fr in 0x80..=0xff {
            bench.write(FR, fr)?;
            bench.write(CR, 0x0f)?;
            assert_eq!(rt; bench.read(CSR)?.byte, 0x40 | fr % 4);
        }
    }
    Ok(())
}
