// Frames and breaks as a whole: what may change while one is under way, and where one ends.
use crate::bench::*;
use crate::script::Step::*;
use crate::script::play_at;
use std::test::*;
use terms::modem_line::ModemLine;

#[test]
fn a_frame_is_sent_in_the_format_it_began_with(rt: HostRuntime) -> Result<(), Fail> {
    play_at(
        &rt,
        0xe0,
        &[
            // eight bits, no parity, one stop bit
            Write(TDR, 0x41),
            SendsBits(Bits(2, 0b0_1)),
            // seven bits, odd parity, two stop bits for the next frame
            Write(TDR, 0x41),
            Write(FR, 0xc4),
            Write(CR, 0x2f),
            SendsBits(Bits(8, 0b0000010_1)),
            SendsBits(Bits(8, 0b0_1000001)),
            // and back
            Write(TDR, 0x41),
            Write(FR, 0xe0),
            Write(CR, 0x0f),
            SendsBits(Bits(3, 0b1_11)),
            SendsBits(Bits(10, 0b0_10000010_1)),
        ],
    )
}

#[test]
fn a_frame_is_gathered_in_the_format_it_began_with(rt: HostRuntime) -> Result<(), Fail> {
    play_at(
        &rt,
        0xe0,
        &[
            // eight bits and no parity; the change comes right behind the first tick of the start bit
            Hears(LOW, 1),
            Write(FR, 0xc4),
            Write(CR, 0x2f),
            Hears(LOW, 15),
            HearsBits(Bits(9, 0b10000011_1)),
            Kept(0xc1),
            Read(ISR, 0xc1),
            Fresh(0xc1),
            // seven bits and a parity bit, which is wrong
            Hears(LOW, 1),
            Write(FR, 0xe0),
            Write(CR, 0x0f),
            Hears(LOW, 15),
            HearsBits(Bits(9, 0b1000001_0_1)),
            Kept(0x41),
            Read(ISR, 0xc5),
            Fresh(0x41),
        ],
    )
}

// A break is as long as a frame at least, in the format it began with.
#[test]
fn a_short_break_lasts_a_frame(rt: HostRuntime) -> Result<(), Fail> {
    for (cr, fr, rest) in [
        (0x4f, 0xe0, 159),
        (0x6f, 0xe0, 175),
        (0x6f, 0xe4, 191),
        (0x4f, 0x80, 111),
    ] {
        play_at(
            &rt,
            fr,
            &[
                Write(CR, cr),
                Write(ACR, 0x02),
                Sends(LOW, 1),
                // the break is called off, and the format changed
                Write(ACR, 0x00),
                Write(FR, fr ^ 0x64),
                Write(CR, cr ^ 0x20),
                Sends(LOW, rest),
                Sends(HIGH, 300),
            ],
        )?;
    }
    Ok(())
}

#[test]
fn a_long_break_lasts_until_it_is_called_off(rt: HostRuntime) -> Result<(), Fail> {
    for ticks in [160, 161, 1000] {
        play_at(
            &rt,
            0xe0,
            &[
                Write(TDR, 0x41),
                Write(CR, 0x4f),
                Write(ACR, 0x02),
                Sends(LOW, ticks),
                Write(ACR, 0x00),
                // one tick of rest, and then the word that was waiting
                Sends(HIGH, 1),
                SendsWord(0x41),
            ],
        )?;
    }
    Ok(())
}

#[test]
fn a_break_waits_for_the_frame_under_way(rt: HostRuntime) -> Result<(), Fail> {
    play_at(
        &rt,
        0xe0,
        &[
            Write(TDR, 0x41),
            SendsBits(Bits(3, 0b0_10)),
            // it comes before the next word, and whatever CTS is
            Write(TDR, 0x42),
            Modem(ModemLine::Cts, HIGH),
            Write(CR, 0x4f),
            Write(ACR, 0x02),
            SendsBits(Bits(7, 0b000010_1)),
            Sends(LOW, 300),
            Write(ACR, 0x00),
            Sends(HIGH, 300),
            Modem(ModemLine::Cts, LOW),
            SendsWord(0x42),
        ],
    )
}

#[test]
fn a_high_cts_holds_the_next_word_back(rt: HostRuntime) -> Result<(), Fail> {
    play_at(
        &rt,
        0xe0,
        &[
            Modem(ModemLine::Cts, HIGH),
            Write(TDR, 0x41),
            Sends(HIGH, 500),
            Modem(ModemLine::Cts, LOW),
            SendsBits(Bits(3, 0b0_10)),
            // the frame under way goes on
            Write(TDR, 0x42),
            Modem(ModemLine::Cts, HIGH),
            SendsBits(Bits(7, 0b000010_1)),
            Sends(HIGH, 500),
            Modem(ModemLine::Cts, LOW),
            SendsWord(0x42),
            // DCD and DSR hold nothing back
            Modem(ModemLine::Dcd, HIGH),
            Modem(ModemLine::Dsr, HIGH),
            Write(TDR, 0x43),
            SendsWord(0x43),
        ],
    )
}

// The receiver ends a frame in the middle of its first stop bit, also where there are two.
#[test]
fn a_frame_ends_at_its_first_stop_bit(rt: HostRuntime) -> Result<(), Fail> {
    for cr in [0x0f, 0x2f] {
        play_at(
            &rt,
            0xe0,
            &[
                Write(CR, cr),
                Hears(LOW, 144),
                Silent,
                Hears(HIGH, 8),
                Silent,
                Hears(HIGH, 1),
                Kept(0x00),
                Fresh(0x00),
                // the next one may begin at once
                Hears(LOW, 144),
                Silent,
                Hears(HIGH, 8),
                Silent,
                Hears(HIGH, 1),
                Kept(0x00),
            ],
        )?;
    }
    Ok(())
}

// A level that is there only for the tick in the middle is the bit.
#[test]
fn bits_are_taken_in_the_middle(rt: HostRuntime) -> Result<(), Fail> {
    play_at(
        &rt,
        0xe0,
        &[
            Hears(LOW, 16),
            Hears(LOW, 8),
            Hears(HIGH, 1),
            Hears(LOW, 7),
            Hears(HIGH, 8),
            Hears(LOW, 1),
            Hears(HIGH, 7),
            HearsBits(Bits(6, 0b100101)),
            Hears(LOW, 8),
            Silent,
            Hears(HIGH, 1),
            Kept(0xa5),
            Read(CSR, 0x40),
        ],
    )
}

#[test]
fn after_a_low_stop_bit_the_receiver_waits_for_a_high_level(rt: HostRuntime) -> Result<(), Fail> {
    play_at(
        &rt,
        0xe0,
        &[
            HearsBits(Bits(10, 0b0_10000010_0)),
            Kept(0x41),
            Read(CSR, 0xc0),
            Hears(LOW, 1000),
            Silent,
            Fresh(0x41),
            Hears(HIGH, 1),
            HearsWord(0x42),
            Kept(0x42),
            Read(CSR, 0x40),
            Fresh(0x42),
            // the same behind a break
            Hears(LOW, 160),
            Broken,
            Hears(LOW, 1000),
            Silent,
            Hears(HIGH, 1),
            HearsWord(0x43),
            Kept(0x43),
        ],
    )
}

// A low stop bit of a word that is lost or passed is no framing error, but the receiver waits.
#[test]
fn only_a_kept_word_has_a_framing_error(rt: HostRuntime) -> Result<(), Fail> {
    play_at(
        &rt,
        0xe0,
        &[
            HearsWord(0x41),
            HearsBits(Bits(10, 0b0_01000010_0)),
            Lost(0x42),
            Read(CSR, 0x40),
            Hears(LOW, 500),
            Silent,
            Hears(HIGH, 1),
            Write(CDR, 0x42),
            HearsBits(Bits(10, 0b0_11000010_0)),
            Passed(0x43),
            Read(CSR, 0x40),
            Hears(LOW, 500),
            Silent,
            Hears(HIGH, 1),
            HearsWord(0x42),
            Passed(0x42),
            HearsWord(0x44),
            Kept(0x44),
        ],
    )
}

// A break has every bit low, the parity bit too. A sleeping receiver reports it and does not wake.
#[test]
fn a_break_has_every_bit_low(rt: HostRuntime) -> Result<(), Fail> {
    play_at(
        &rt,
        0xe4,
        &[
            HearsBits(Bits(11, 0b0_00000000_1_0)),
            Kept(0x00),
            Read(CSR, 0xc0),
            Fresh(0x00),
            Hears(HIGH, 1),
            HearsBits(Bits(11, 0b0_00000000_0_1)),
            Kept(0x00),
            Read(CSR, 0x40),
            Write(CDR, 0x00),
            HearsBits(Bits(11, 0b0_00000000_0_0)),
            Broken,
            Read(CSR, 0x44),
            Hears(HIGH, 1),
            HearsBits(Bits(11, 0b0_00000000_1_1)),
            Passed(0x00),
            HearsBits(Bits(11, 0b0_00000000_1_1)),
            Kept(0x00),
        ],
    )
}
