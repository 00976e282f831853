// The bits of the registers that are written, and of RDR.
use crate::bench::*;
use crate::script::Step::*;
use crate::script::play_at;
use std::test::*;
use terms::channel_id::ChannelId;
use terms::note::ReadNote;
use terms::report::ReportKind;

// FR bits 6-5 and TDR: each word is sent cut to its data bits, with the next one right behind it.
#[test]
fn each_word_is_sent_cut_to_its_length(rt: HostRuntime) -> Result<(), Fail> {
    for channel in ChannelId::BOTH {
        for Length { fr, bits, .. } in LENGTHS {
            let mut bench = Bench::clocked(channel, fr)?;
            for word in 0..=255 {
                bench.write(TDR, word)?;
                let frame = Frame {
                    bits,
                    ..plain(word)
                };
                bench.sends_frame(&rt, frame)?;
            }
            bench.sends_level(&rt, HIGH, 200)?;
        }
    }
    Ok(())
}

// FR bits 6-5 and RDR: each word is kept and read.
#[test]
fn each_word_is_kept_at_its_length(rt: HostRuntime) -> Result<(), Fail> {
    for channel in ChannelId::BOTH {
        for Length { fr, bits, greatest } in LENGTHS {
            let mut bench = Bench::clocked(channel, fr)?;
            for word in 0..=greatest {
                let frame = Frame {
                    bits,
                    ..plain(word)
                };
                assert_eq!(rt; bench.hears_frame(frame), kept(word));
                bench.rdr_is(&rt, word, ReadNote::Fresh)?;
            }
        }
    }
    Ok(())
}

// CR bit 5: the next frame comes behind one stop bit or behind two.
#[test]
fn cr_bit_5_makes_two_stop_bits(rt: HostRuntime) -> Result<(), Fail> {
    for channel in ChannelId::BOTH {
        for (cr, stops) in [(0x0f, 1), (0x2f, 2)] {
            let mut bench = Bench::clocked(channel, 0xe0)?;
            bench.write(CR, cr)?;
            for word in [0x41, 0x00, 0xff] {
                bench.write(TDR, word)?;
                let frame = Frame {
                    stops,
                    ..plain(word)
                };
                bench.sends_frame(&rt, frame)?;
            }
        }
    }
    Ok(())
}

// CR bit 6: ACR and CDR are written at one address.
#[test]
fn cr_bit_6_chooses_acr(rt: HostRuntime) -> Result<(), Fail> {
    // to ACR: a break is sent, and the receiver stays awake
    play_at(
        &rt,
        0xe0,
        &[
            Write(CR, 0x4f),
            Write(ACR, 0x02),
            Sends(LOW, 1),
            HearsWord(0x41),
            Kept(0x41),
        ],
    )?;
    // to CDR: no break, and the receiver sleeps
    play_at(
        &rt,
        0xe0,
        &[
            Write(CR, 0x0f),
            Write(CDR, 0x02),
            Sends(HIGH, 1),
            HearsWord(0x41),
            Passed(0x41),
        ],
    )
}

// Bit 7 of a control byte: FR if it is set, CR if it is clear, and the other stays.
#[test]
fn bit_7_chooses_fr(rt: HostRuntime) -> Result<(), Fail> {
    play_at(
        &rt,
        0xe3,
        &[
            Write(CR, 0x2f),
            Read(CSR, 0x43),
            Write(FR, 0xc4),
            Read(CSR, 0x40),
            // CR stays at rate code 15 and two stop bits
            Write(TDR, 0x41),
            SendsBits(Bits(11, 0b0_1000001_1_11)),
            // FR stays at seven bits and odd parity
            Write(CR, 0x0f),
            Write(TDR, 0x41),
            SendsBits(Bits(10, 0b0_1000001_1_1)),
            Write(TDR, 0x41),
            SendsBits(Bits(1, 0b0)),
        ],
    )
}

// The bits above 1 are not there.
#[test]
fn acr_bit_1_sends_a_break(rt: HostRuntime) -> Result<(), Fail> {
    for (acr, level) in [
        (0x00, HIGH),
        (0x01, HIGH),
        (0xfd, HIGH),
        (0x02, LOW),
        (0xff, LOW),
    ] {
        play_at(
            &rt,
            0xe0,
            &[
                Write(CR, 0x4f),
                Write(ACR, acr),
                Sends(level, 500),
                Write(ACR, 0x00),
                Sends(HIGH, 500),
            ],
        )?;
    }
    Ok(())
}

// CDR: only the word that equals it in every bit wakes the receiver.
#[test]
fn cdr_is_compared_bit_by_bit(rt: HostRuntime) -> Result<(), Fail> {
    for channel in ChannelId::BOTH {
        let mut bench = Bench::clocked(channel, 0xe0)?;
        for address in 0..=255 {
            bench.write(CDR, address)?;
            for bit in [1, 2, 4, 8, 16, 32, 64, 128] {
                assert_eq!(rt;
                    bench.hears_word(address ^ bit),
                    ended(ReportKind::Passed, address ^ bit)
                );
            }
            assert_eq!(rt;
                bench.hears_word(address),
                ended(ReportKind::Passed, address)
            );
            assert_eq!(rt; bench.hears_word(address), kept(address));
        }
    }
    Ok(())
}

// All eight bits of CDR count, in frames of seven bits too.
#[test]
fn a_short_word_never_equals_a_long_address(rt: HostRuntime) -> Result<(), Fail> {
    play_at(
        &rt,
        0xc0,
        &[
            Write(CDR, 0xc1),
            HearsBits(Bits(9, 0b0_1000001_1)),
            Passed(0x41),
            HearsBits(Bits(9, 0b0_1000001_1)),
            Passed(0x41),
            Write(CDR, 0x41),
            HearsBits(Bits(9, 0b0_1000001_1)),
            Passed(0x41),
            HearsBits(Bits(9, 0b0_1000001_1)),
            Kept(0x41),
        ],
    )
}
