// The ticks of a channel: every so many cycles for the rate codes 0 to 14, and in marked cycles for 15.
use crate::bench::*;
use channel::channel::Marks;
use std::process::Abort;
use std::test::*;
use terms::channel_id::ChannelId;
use terms::note::ReadNote;
use terms::refusal::Refusal;
use terms::report::ReportKind;

// The rate codes with the cycles from tick to tick.
const DIVISORS: [(u8, u16); 15] = [
    (0, 4608),
    (1, 2110),
    (2, 1712),
    (3, 1536),
    (4, 768),
    (5, 384),
    (6, 192),
    (7, 128),
    (8, 96),
    (9, 64),
    (10, 48),
    (11, 32),
    (12, 24),
    (13, 12),
    (14, 6),
];

// With a word waiting, TxD falls in the cycle of that number and in none before, though something is done before each cycle.
fn falls_though<F: Fn(&mut Bench) -> Result<(), Refusal>>(
    rt: &impl Abort,
    bench: &mut Bench,
    number: u16,
    marks: Marks,
    before: F,
) -> Result<(), Fail>
    requires { F.IsAlwaysCallable before }
{
    for cycle in 1..=number {
        before(bench)?;
        assert_eq!(rt;
            bench.cycle(HIGH, marks).txd,
            cycle < number,
            "{} at {}",
            cycle,
            bench.at
        );
    }
    Ok(())
}

fn falls_in_cycle(
    rt: &impl Abort,
    bench: &mut Bench,
    number: u16,
    marks: Marks,
) -> Result<(), Fail> {
    falls_though(rt, bench, number, marks, |_| Ok(()))
}

// Writes CR with each of its bits above the rate code set and clear, and FR.
fn write_around(bench: &mut Bench, code: u8) -> Result<(), Refusal> {
    for other_bits in [0x10, 0x20, 0x40, 0x70, 0x00] {
        bench.write(CR, code | other_bits)?;
    }
    bench.write(FR, 0x80 | code)?;
    Ok(())
}

// The marks of a cycle mean nothing to these codes.
#[test]
fn the_first_tick_comes_at_the_divisor(rt: HostRuntime) -> Result<(), Fail> {
    for channel in ChannelId::BOTH {
        for (code, divisor) in DIVISORS {
            for marks in [UNMARKED, RXC_TXC] {
                let mut bench = Bench::new(channel);
                bench.write(CR, code)?;
                bench.write(TDR, 0x01)?;
                bench.at = usize::from(code);
                falls_in_cycle(&rt, &mut bench, divisor, marks)?;
            }
        }
    }
    Ok(())
}

// A bit lasts 16 ticks: the start bit falls at the first one and the data bit behind it rises at the 17th.
#[test]
fn a_bit_lasts_16_divisors(rt: HostRuntime) -> Result<(), Fail> {
    for channel in ChannelId::BOTH {
        for (code, divisor) in DIVISORS {
            let mut bench = Bench::new(channel);
            bench.write(CR, code)?;
            bench.write(TDR, 0x01)?;
            let falls = u32::from(divisor);
            let rises = 17 * falls;
            for cycle in 1..=rises {
                let level = cycle < falls || cycle == rises;
                assert_eq!(rt; bench.cycle(HIGH, UNMARKED).txd, level, "{}", code);
            }
        }
    }
    Ok(())
}

// The receiver has the same ticks: at FR $E0 it reports a break at the 153rd.
#[test]
fn a_break_is_reported_at_the_153rd_divisor(rt: HostRuntime) -> Result<(), Fail> {
    for channel in ChannelId::BOTH {
        for (code, divisor) in DIVISORS {
            let mut bench = Bench::new(channel);
            bench.write(CR, code)?;
            bench.write(FR, 0xe0)?;
            let end = 153 * u32::from(divisor);
            for cycle in 1..=end {
                let report = if cycle < end {
                    None
                } else {
                    ended(ReportKind::Break, 0)
                };
                assert_eq!(rt; bench.cycle(LOW, UNMARKED).report, report, "{}", code);
            }
        }
    }
    Ok(())
}

#[test]
fn another_rate_code_restarts_the_count(rt: HostRuntime) -> Result<(), Fail> {
    for channel in ChannelId::BOTH {
        for (code, divisor) in DIVISORS {
            for (other, other_divisor) in DIVISORS {
                if code != other {
                    let mut bench = Bench::new(channel);
                    bench.write(TDR, 0x01)?;
                    bench.write(CR, code)?;
                    for _ in 1..divisor {
                        bench.cycle(HIGH, UNMARKED);
                    }
                    bench.write(CR, other)?;
                    bench.at = usize::from(other);
                    falls_in_cycle(&rt, &mut bench, other_divisor, UNMARKED)?;
                }
            }
        }
    }
    Ok(())
}

#[test]
fn rate_code_15_and_back_restarts_the_count(rt: HostRuntime) -> Result<(), Fail> {
    for channel in ChannelId::BOTH {
        for (code, divisor) in DIVISORS {
            let mut bench = Bench::new(channel);
            bench.write(CR, code)?;
            for _ in 1..divisor {
                bench.cycle(HIGH, UNMARKED);
            }
            bench.write(CR, 0x0f)?;
            bench.write(CR, code)?;
            bench.write(TDR, 0x01)?;
            bench.at = usize::from(code);
            falls_in_cycle(&rt, &mut bench, divisor, UNMARKED)?;
        }
    }
    Ok(())
}

#[test]
fn the_same_rate_code_leaves_the_count(rt: HostRuntime) -> Result<(), Fail> {
    for channel in ChannelId::BOTH {
        for (code, divisor) in DIVISORS {
            let mut bench = Bench::new(channel);
            bench.write(CR, code)?;
            bench.write(TDR, 0x01)?;
            bench.at = usize::from(code);
            falls_though(&rt, &mut bench, divisor, UNMARKED, |bench| {
                write_around(bench, code)
            })?;
        }
    }
    Ok(())
}

#[test]
fn with_code_15_the_transmitter_ticks_on_txc_alone(rt: HostRuntime) -> Result<(), Fail> {
    for channel in ChannelId::BOTH {
        let mut bench = Bench::clocked(channel, 0xe0)?;
        bench.write(TDR, 0x01)?;
        for _ in 0..5000 {
            assert_eq!(rt; bench.cycle(HIGH, UNMARKED).txd, HIGH);
            assert_eq!(rt; bench.cycle(HIGH, RXC).txd, HIGH);
        }
        for _ in 0..16 {
            assert_eq!(rt; bench.cycle(HIGH, TXC).txd, LOW);
            assert_eq!(rt; bench.cycle(HIGH, UNMARKED).txd, LOW);
            assert_eq!(rt; bench.cycle(HIGH, RXC).txd, LOW);
        }
        assert_eq!(rt; bench.cycle(HIGH, RXC_TXC).txd, HIGH);
    }
    Ok(())
}

#[test]
fn with_code_15_the_receiver_ticks_on_rxc_alone(rt: HostRuntime) -> Result<(), Fail> {
    for channel in ChannelId::BOTH {
        let mut bench = Bench::clocked(channel, 0xe0)?;
        for _ in 0..5000 {
            assert_eq!(rt; bench.cycle(LOW, UNMARKED).report, None);
            assert_eq!(rt; bench.cycle(LOW, TXC).report, None);
        }
        // nine low ticks with high levels between that are not seen, and then the other way round
        for _ in 0..9 {
            assert_eq!(rt; bench.cycle(LOW, RXC).report, None);
            assert_eq!(rt; bench.cycle(HIGH, UNMARKED).report, None);
            assert_eq!(rt; bench.cycle(HIGH, TXC).report, None);
        }
        for _ in 0..143 {
            assert_eq!(rt; bench.cycle(HIGH, RXC_TXC).report, None);
            assert_eq!(rt; bench.cycle(LOW, UNMARKED).report, None);
            assert_eq!(rt; bench.cycle(LOW, TXC).report, None);
        }
        assert_eq!(rt; bench.cycle(HIGH, RXC).report, kept(0xff));
        bench.rdr_is(&rt, 0xff, ReadNote::Fresh)?;
    }
    Ok(())
}
