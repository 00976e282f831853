// Figures that the chip is known by.
use crate::bench::*;
use crate::script::Step::*;
use crate::script::{play, play_at};
use std::test::*;
use terms::channel_id::ChannelId;

#[test]
fn a_reset_chip_reads_c1_and_43(rt: HostRuntime) -> Result<(), Fail> {
    for channel in ChannelId::BOTH {
        let mut bench = Bench::new(channel);
        play(&rt, &mut bench, &[Read(ISR, 0xc1), Read(CSR, 0x43)])?;
    }
    Ok(())
}

#[test]
fn sends_41_at_fr_e0(rt: HostRuntime) -> Result<(), Fail> {
    play_at(
        &rt,
        0xe0,
        &[Write(TDR, 0x41), SendsBits(Bits(10, 0b0100000101))],
    )
}

#[test]
fn sends_41_in_seven_bits_with_parity(rt: HostRuntime) -> Result<(), Fail> {
    play_at(
        &rt,
        0xcc,
        &[Write(TDR, 0x41), SendsBits(Bits(10, 0b0_1000001_0_1))],
    )?;
    play_at(
        &rt,
        0xc4,
        &[Write(TDR, 0x41), SendsBits(Bits(10, 0b0_1000001_1_1))],
    )
}

#[test]
fn a_start_bit_is_low_for_nine_ticks(rt: HostRuntime) -> Result<(), Fail> {
    play_at(
        &rt,
        0xe0,
        &[
            Hears(LOW, 8),
            Silent,
            Hears(HIGH, 320),
            Silent,
            Read(ISR, 0xc0),
            Hears(LOW, 9),
            Silent,
            Hears(HIGH, 143),
            Silent,
            Hears(HIGH, 1),
            Kept(0xff),
            Fresh(0xff),
        ],
    )
}

#[test]
fn ten_low_bits_are_a_break(rt: HostRuntime) -> Result<(), Fail> {
    // RDRF is clear
    play_at(
        &rt,
        0xe0,
        &[
            Hears(LOW, 152),
            Silent,
            Hears(LOW, 8),
            Broken,
            Read(ISR, 0xc2),
            Read(CSR, 0x44),
            Old(0x00),
        ],
    )?;
    // RDRF is set
    play_at(
        &rt,
        0xe0,
        &[
            HearsWord(0x41),
            Kept(0x41),
            Hears(LOW, 152),
            Silent,
            Hears(LOW, 8),
            Broken,
            Read(ISR, 0xc3),
            Read(CSR, 0x44),
            Fresh(0x41),
        ],
    )
}

#[test]
fn a_second_word_unread_is_lost(rt: HostRuntime) -> Result<(), Fail> {
    play_at(
        &rt,
        0xe0,
        &[
            HearsWord(0x41),
            Kept(0x41),
            HearsWord(0x42),
            Lost(0x42),
            Fresh(0x41),
            Old(0x41),
            HearsWord(0x43),
            Kept(0x43),
            Fresh(0x43),
        ],
    )
}

#[test]
fn a_sleeping_receiver_wakes_behind_its_address(rt: HostRuntime) -> Result<(), Fail> {
    play_at(
        &rt,
        0xe0,
        &[
            Write(CDR, 0x41),
            HearsWord(0x10),
            Passed(0x10),
            HearsWord(0x41),
            Passed(0x41),
            HearsWord(0x42),
            Kept(0x42),
            Fresh(0x42),
        ],
    )
}
