// The four parities at each word length, sent and received.
use crate::bench::*;
use serial::parity::Parity;
use std::process::Abort;
use std::test::*;
use terms::channel_id::ChannelId;
use terms::note::ReadNote;

// FR bits 4-3 with their parity.
const PARITIES: [(u8, Parity); 4] = [
    (0x00, Parity::Odd),
    (0x08, Parity::Even),
    (0x10, Parity::Mark),
    (0x18, Parity::Space),
];

// FR bit 2: there is a parity bit.
const CHECKED: u8 = 0x04;

// The parity bit of a word.
fn right_bit(parity: Parity, word: u8) -> bool {
    let ones_are_odd = word.count_ones() % 2 == 1;
    match parity {
        Parity::Odd => !ones_are_odd,
        Parity::Even => ones_are_odd,
        Parity::Mark => true,
        Parity::Space => false,
    }
}

// Sends each word, with the next one right behind it.
fn sends_each_word(
    rt: &impl Abort,
    bench: &mut Bench,
    length: Length,
    parity: Parity,
) -> Result<(), Fail> {
    for word in 0..=length.greatest {
        bench.write(TDR, word)?;
        let frame = Frame {
            bits: length.bits,
            parity: Some(right_bit(parity, word)),
            ..plain(word)
        };
        bench.sends_frame(rt, frame)?;
    }
    Ok(())
}

#[test]
fn the_parity_bit_is_sent(rt: HostRuntime) -> Result<(), Fail> {
    for channel in ChannelId::BOTH {
        for length in LENGTHS {
            for (fr, parity) in PARITIES {
                let mut bench = Bench::clocked(channel, length.fr | CHECKED | fr)?;
                bench.at = usize::from(fr);
                sends_each_word(&rt, &mut bench, length, parity)?;
            }
        }
    }
    Ok(())
}

// The bits above the length count for nothing.
#[test]
fn the_parity_is_that_of_the_cut_word(rt: HostRuntime) -> Result<(), Fail> {
    for channel in ChannelId::BOTH {
        for (fr, parity) in PARITIES {
            let mut bench = Bench::clocked(channel, 0x84 | fr)?;
            for word in 0..=255 {
                bench.write(TDR, word)?;
                let frame = Frame {
                    bits: 5,
                    parity: Some(right_bit(parity, word % 32)),
                    ..plain(word)
                };
                bench.sends_frame(&rt, frame)?;
            }
        }
    }
    Ok(())
}

// Hears a frame, whose word is kept; ISR has PAR as told.
fn hears(rt: &impl Abort, bench: &mut Bench, frame: Frame, par: bool) -> Result<(), Fail> {
    assert_eq!(rt;
        bench.hears_frame(frame),
        kept(frame.word),
        "at {}",
        bench.at
    );
    bench.isr_is(rt, if par { 0xc5 } else { 0xc1 })?;
    bench.rdr_is(rt, frame.word, ReadNote::Fresh)
}

// Hears each word with the right and with the wrong parity bit. PAR tells a wrong one, or is the bit itself.
fn hears_each_word(
    rt: &impl Abort,
    bench: &mut Bench,
    length: Length,
    parity: Parity,
    shows_bit: bool,
) -> Result<(), Fail> {
    for word in 0..=length.greatest {
        let right = right_bit(parity, word);
        for bit in [right, !right] {
            let par = if shows_bit { bit } else { bit != right };
            let frame = Frame {
                bits: length.bits,
                parity: Some(bit),
                ..plain(word)
            };
            hears(rt, bench, frame, par)?;
        }
    }
    Ok(())
}

#[test]
fn par_is_a_wrong_parity_bit_or_the_bit_itself(rt: HostRuntime) -> Result<(), Fail> {
    for channel in ChannelId::BOTH {
        for length in LENGTHS {
            for (fr, parity) in PARITIES {
                for (acr, shows_bit) in [(0x00, false), (0x01, true)] {
                    let mut bench = Bench::clocked(channel, length.fr | CHECKED | fr)?;
                    bench.write_acr(acr)?;
                    bench.at = usize::from(fr);
                    hears_each_word(&rt, &mut bench, length, parity, shows_bit)?;
                }
            }
        }
    }
    Ok(())
}

// FR bit 2 clear: there is no parity bit, and PAR is 0 whatever FR bits 4-3 and ACR bit 0 say.
#[test]
fn par_is_0_without_parity(rt: HostRuntime) -> Result<(), Fail> {
    for channel in ChannelId::BOTH {
        for (fr, _) in PARITIES {
            for acr in [0x00, 0x01] {
                let mut bench = Bench::clocked(channel, 0xe0 | fr)?;
                bench.write_acr(acr)?;
                for word in 0..=255 {
                    assert_eq!(rt; bench.hears_word(word), kept(word));
                    bench.isr_is(&rt, 0xc1)?;
                    bench.rdr_is(&rt, word, ReadNote::Fresh)?;
                }
            }
        }
    }
    Ok(())
}
