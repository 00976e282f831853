// Accesses: how they are opened, ended and refused, and their notes.
use crate::bench::*;
use crate::script::Step::*;
use crate::script::{play, play_at};
use dacia::access::{ReadAccess, WriteAccess};
use dacia::chip::{Chip, Inputs, PoweredChip};
use std::process::Abort;
use std::test::*;
use terms::channel_id::ChannelId;
use terms::channels::Channels;
use terms::modem_line::ModemLine;
use terms::note::WriteNote;
use terms::refusal::Refusal;

// The selects that can be read.
const READABLE: [u8; 6] = [0, 1, 3, 4, 5, 7];

// One cycle with RxD1 low.
fn step(chip: &mut Chip) {
    chip.cycle(Inputs {
        rxd: Channels {
            one: LOW,
            two: HIGH,
        },
        marks: RXC_TXC,
    });
}

// A chip with something to show in each register: requests, changes, a frame being sent, one being gathered and a word waiting.
fn busy_chip() -> Result<Chip, Refusal> {
    let mut chip = PoweredChip::power_on().reset();
    for channel in ChannelId::BOTH {
        chip.write(select(channel, IER), 0xff)?;
        chip.write(select(channel, CR), 0x0f)?;
        chip.write(select(channel, FR), 0xe1)?;
        chip.write(select(channel, TDR), 0x41)?;
    }
    for _ in 0..40 {
        step(&mut chip);
    }
    chip.write(3, 0x42)?;
    chip.set_modem(ChannelId::One, ModemLine::Dcd, HIGH);
    chip.set_modem(ChannelId::Two, ModemLine::Dsr, HIGH);
    Ok(chip)
}

// Two chips read the same and keep the same levels, now and through the next cycles.
fn are_alike(rt: &impl Abort, mut left: Chip, mut right: Chip) -> Result<(), Fail> {
    for cycle in 0..200u8 {
        for channel in ChannelId::BOTH {
            assert_eq!(rt; left.txd(channel), right.txd(channel), "{}", cycle);
            assert_eq!(rt; left.irq(channel), right.irq(channel), "{}", cycle);
        }
        step(&mut left);
        step(&mut right);
        if cycle % 50 == 0 {
            for select in READABLE {
                assert_eq!(rt; left.read(select)?, right.read(select)?, "{}", select);
            }
        }
    }
    Ok(())
}

#[test]
fn no_access_opens_above_select_7(rt: HostRuntime) -> Result<(), Fail> {
    let mut chip = busy_chip()?;
    for select in 8..=255 {
        assert_eq!(rt;
            ReadAccess::open(select)
                .map(|access| chip.end_read(access))
                .err(),
            Some(Refusal::NoSuchSelect),
            "{}",
            select
        );
        assert_eq!(rt;
            WriteAccess::open(select)
                .map(|access| chip.end_write(access, 0xff))
                .err(),
            Some(Refusal::NoSuchSelect),
            "{}",
            select
        );
        assert_eq!(rt; chip.read(select), Err(Refusal::NoSuchSelect), "{}", select);
        assert_eq!(rt;
            chip.write(select, 0xff),
            Err(Refusal::NoSuchSelect),
            "{}",
            select
        );
    }
    are_alike(&rt, chip, busy_chip()?)
}

#[test]
fn every_access_opens_up_to_select_7(rt: HostRuntime) -> Result<(), Fail> {
    let mut chip = busy_chip()?;
    for select in 0..8 {
        assert_eq!(rt;
            ReadAccess::open(select)
                .map(|access| chip.end_read(access))
                .err(),
            None,
            "{}",
            select
        );
        assert_eq!(rt;
            WriteAccess::open(select)
                .map(|access| chip.end_write(access, 0xff))
                .err(),
            None,
            "{}",
            select
        );
    }
    Ok(())
}

#[test]
fn a_read_that_ends_at_select_2_or_6_is_refused(rt: HostRuntime) -> Result<(), Fail> {
    let mut chip = busy_chip()?;
    for select in [2, 6] {
        let access = ReadAccess::open(select)?;
        assert_eq!(rt;
            chip.end_read(access),
            Err(Refusal::NothingToRead),
            "{}",
            select
        );
        assert_eq!(rt;
            chip.read(select),
            Err(Refusal::NothingToRead),
            "{}",
            select
        );
    }
    are_alike(&rt, chip, busy_chip()?)
}

#[test]
fn refusals_have_numbers(rt: HostRuntime) -> Result<(), Fail> {
    assert_eq!(rt; Refusal::NoSuchSelect.number(), 1);
    assert_eq!(rt; Refusal::NothingToRead.number(), 2);
    Ok(())
}

// An access works when it is ended, on the chip that it is ended at.
#[test]
fn a_read_works_when_it_is_ended(rt: HostRuntime) -> Result<(), Fail> {
    let mut chip = PoweredChip::power_on().reset();
    let mut other = PoweredChip::power_on().reset();
    let access = ReadAccess::open(0)?;
    chip.set_modem(ChannelId::One, ModemLine::Dcd, HIGH);
    other.set_modem(ChannelId::One, ModemLine::Dcd, HIGH);
    assert_eq!(rt; chip.end_read(access)?.byte, 0xd1);
    assert_eq!(rt; chip.read(0)?.byte, 0xc1);
    assert_eq!(rt; other.read(0)?.byte, 0xd1);
    Ok(())
}

#[test]
fn a_write_works_when_it_is_ended(rt: HostRuntime) -> Result<(), Fail> {
    let mut chip = PoweredChip::power_on().reset();
    let mut other = PoweredChip::power_on().reset();
    let access = WriteAccess::open(3)?;
    let before = chip.write(3, 0x41);
    assert_eq!(rt; chip.end_write(access, 0x42), Some(WriteNote::Replaced));
    assert_eq!(rt; before, Ok(Some(WriteNote::Stored)));
    assert_eq!(rt; other.read(0)?.byte, 0xc1);
    assert_eq!(rt; chip.read(0)?.byte, 0x81);
    Ok(())
}

#[test]
fn rdr_is_fresh_once(rt: HostRuntime) -> Result<(), Fail> {
    for channel in ChannelId::BOTH {
        let mut bench = Bench::new(channel);
        play(
            &rt,
            &mut bench,
            &[
                Fresh(0x00),
                Old(0x00),
                Write(CR, 0x0f),
                Write(FR, 0xe0),
                HearsWord(0x41),
                Fresh(0x41),
                Old(0x41),
                // a break is nothing to read
                Hears(LOW, 160),
                Old(0x41),
                // nor is a word behind which CDR was written
                Hears(HIGH, 1),
                HearsWord(0x42),
                Write(CDR, 0x00),
                Old(0x42),
            ],
        )?;
    }
    Ok(())
}

// Only the word written last is sent.
#[test]
fn tdr_is_replaced_until_its_word_is_taken(rt: HostRuntime) -> Result<(), Fail> {
    play_at(
        &rt,
        0xe0,
        &[
            Stored(0x10),
            Replaced(0x11),
            Replaced(0x41),
            SendsBits(Bits(2, 0b0_1)),
            Stored(0x12),
            Replaced(0x42),
            SendsBits(Bits(8, 0b0000010_1)),
            SendsWord(0x42),
            Sends(HIGH, 400),
            Stored(0x43),
        ],
    )
}

#[test]
fn the_other_registers_have_no_note(rt: HostRuntime) -> Result<(), Fail> {
    for channel in ChannelId::BOTH {
        let mut bench = Bench::new(channel);
        assert_eq!(rt; bench.read(ISR)?.note, None);
        assert_eq!(rt; bench.read(CSR)?.note, None);
        assert_eq!(rt; bench.write(IER, 0xff)?, None);
        assert_eq!(rt; bench.write(IER, 0x7f)?, None);
        assert_eq!(rt; bench.write(FR, 0xe0)?, None);
        assert_eq!(rt; bench.write(CR, 0x0f)?, None);
        assert_eq!(rt; bench.write(CDR, 0x41)?, None);
        assert_eq!(rt; bench.write(CR, 0x4f)?, None);
        assert_eq!(rt; bench.write(ACR, 0x03)?, None);
    }
    Ok(())
}
