// Both channels at once: they keep apart, a cycle answers for both, and a wire joins them.
use crate::bench::*;
use channel::channel::{ChannelAnswer, Marks};
use dacia::chip::{Chip, ChipAnswer, Inputs, PoweredChip};
use std::process::Abort;
use std::test::*;
use terms::channel_id::ChannelId;
use terms::channels::Channels;
use terms::modem_line::ModemLine;
use terms::note::{Reading, WriteNote};
use terms::refusal::Refusal;
use terms::register::Register;

// A chip with rate code 14 and plain frames in both channels, and nothing to read.
fn set_up() -> Result<Chip, Refusal> {
    let mut chip = PoweredChip::power_on().reset();
    for channel in ChannelId::BOTH {
        chip.write(select(channel, CR), 0x0e)?;
        chip.write(select(channel, FR), 0xe0)?;
        chip.read(select(channel, RDR))?;
    }
    Ok(chip)
}

// One cycle of a chip with each TxD wired to the other channel's RxD.
fn wired_cycle(chip: &mut Chip) -> ChipAnswer {
    let inputs = Inputs {
        rxd: Channels {
            one: chip.txd(ChannelId::Two),
            two: chip.txd(ChannelId::One),
        },
        marks: UNMARKED,
    };
    chip.cycle(inputs)
}

// A tick takes 6 cycles. The word is taken at the first one, and its stop bit is seen at the 154th.
#[test]
fn a_word_crosses_a_wire_in_924_cycles(rt: HostRuntime) -> Result<(), Fail> {
    let mut chip = set_up()?;
    chip.write(3, 0x41)?;
    chip.write(7, 0x42)?;
    for cycle in 1..2000u16 {
        let answer = wired_cycle(&mut chip);
        for (channel, word) in [(ChannelId::One, 0x42), (ChannelId::Two, 0x41)] {
            let due = if cycle == 924 { kept(word) } else { None };
            assert_eq!(rt; answer.at(channel).report, due, "{}", cycle);
        }
    }
    assert_eq!(rt; chip.read(3)?.byte, 0x42);
    assert_eq!(rt; chip.read(7)?.byte, 0x41);
    Ok(())
}

// Numbers with no plan, the same in each run.
#[derive(Clone, Copy)]
struct Dice {
    state: u64,
}

impl Dice {
    fn byte(&mut self) -> u8 {
        self.state = self
            .state
            .wrapping_mul(6364136223846793005)
            .wrapping_add(1442695040888963407);
        let [top, ..] = self.state.to_be_bytes();
        top
    }

    fn level(&mut self) -> bool {
        self.byte() < 128
    }

    fn register(&mut self) -> Register {
        match self.byte() % 4 {
            0 => Register::Interrupt,
            1 => Register::Control,
            2 => Register::Auxiliary,
            _ => Register::Data,
        }
    }
}

// What a program does to a channel between two cycles. An enum and no closure: those of `thrown` would be of several types,
// and would have to be boxed.
#[derive(Clone, Copy)]
enum Act {
    Read(Register),
    Write(Register, u8),
    Modem(ModemLine, bool),
}

// What an access answers.
#[derive(Clone, Copy, PartialEq, Debug)]
enum Outcome {
    Read(Result<Reading, Refusal>),
    Written(Result<Option<WriteNote>, Refusal>),
}

// Mostly nothing.
fn thrown(dice: &mut Dice) -> Option<Act> {
    match dice.byte() % 64 {
        0 => Some(Act::Read(dice.register())),
        1 => Some(Act::Write(dice.register(), dice.byte())),
        2 => Some(Act::Modem(ModemLine::Cts, dice.level())),
        3 => Some(Act::Modem(ModemLine::Dcd, dice.level())),
        4 => Some(Act::Modem(ModemLine::Dsr, dice.level())),
        // rate code 15, so that there are ticks
        5 | 6 => Some(Act::Write(CR, dice.byte() | 0x0f)),
        7 => Some(Act::Write(TDR, dice.byte())),
        8 => Some(Act::Read(RDR)),
        _ => None,
    }
}

// Does it, and answers what comes of an access.
fn done(act: Option<Act>, chip: &mut Chip, channel: ChannelId) -> Option<Outcome> {
    match act? {
        Act::Read(register) => { Some(Outcome::Read(chip.read(select(channel, register)))) }
        Act::Write(register, byte) => {
            Some(Outcome::Written(chip.write(select(channel, register), byte)))
        }
        Act::Modem(line, level) => {
            chip.set_modem(channel, line, level);
            None
        }
    }
}

// Two chips get the same on one channel, and the second one gets more on the other: the first channel answers the same.
fn keeps_to_itself(rt: &impl Abort, channel: ChannelId) -> Result<(), Fail> {
    let mut dice = Dice { state: 65 };
    let mut quiet = PoweredChip::power_on().reset();
    let mut busy = PoweredChip::power_on().reset();
    let mut level = HIGH;
    for cycle in 0..200000u32 {
        let act = thrown(&mut dice);
        assert_eq!(rt;
            done(act, &mut busy, channel),
            done(act, &mut quiet, channel),
            "{}",
            cycle
        );
        done(thrown(&mut dice), &mut busy, channel.other());
        if dice.byte() < 16 {
            level = !level;
        }
        let marks = Marks {
            rxc: dice.level(),
            txc: dice.level(),
        };
        let left = cycle_of(&mut quiet, channel, level, HIGH, marks);
        let right = cycle_of(&mut busy, channel, level, dice.level(), marks);
        assert_eq!(rt; left, right, "{}", cycle);
    }
    Ok(())
}

#[test]
fn the_channels_keep_apart(rt: HostRuntime) -> Result<(), Fail> {
    for channel in ChannelId::BOTH {
        keeps_to_itself(&rt, channel)?;
    }
    Ok(())
}

#[test]
fn a_cycle_answers_the_levels_that_it_leaves(rt: HostRuntime) -> Result<(), Fail> {
    let mut dice = Dice { state: 52 };
    let mut chip = PoweredChip::power_on().reset();
    for cycle in 0..200000u32 {
        for channel in ChannelId::BOTH {
            done(thrown(&mut dice), &mut chip, channel);
        }
        let inputs = Inputs {
            rxd: Channels {
                one: dice.byte() < 16,
                two: dice.byte() < 240,
            },
            marks: Marks {
                rxc: dice.level(),
                txc: dice.level(),
            },
        };
        let answer = chip.cycle(inputs);
        for channel in ChannelId::BOTH {
            let ChannelAnswer { txd, irq, .. } = *answer.at(channel);
            assert_eq!(rt; txd, chip.txd(channel), "{}", cycle);
            assert_eq!(rt; irq, chip.irq(channel), "{}", cycle);
        }
    }
    Ok(())
}
