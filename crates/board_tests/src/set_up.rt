// Set-up: what it refuses, and what it leaves.
use crate::twins::alike;
use board::board::Board;
use dacia::access::Place;
use line::table_line::TableLine;
use line::wire::Wire;
use std::process::Abort;
use std::test::Fail;
use terms::channel_id::ChannelId;
use terms::note::{ReadNote, Reading};
use terms::refusal::Refusal;
use terms::register::Register;

// The refusal with the smallest number that applies.
fn due(cr: u8, fr: u8, quiet: bool) -> Result<(), Refusal> {
    if cr >= 128 || cr % 16 == 15 {
        return Err(Refusal::BadControl);
    }
    if fr < 128 {
        return Err(Refusal::BadFormat);
    }
    if quiet {
        Ok(())
    } else {
        Err(Refusal::LineNotQuiet)
    }
}

#[test]
fn refusals_have_numbers(rt: HostRuntime) -> Result<(), Fail> {
    assert_eq!(rt; Refusal::BadControl.number(), 3);
    assert_eq!(rt; Refusal::BadFormat.number(), 4);
    assert_eq!(rt; Refusal::LineNotQuiet.number(), 5);
    assert_eq!(rt; Refusal::BadSweepLength.number(), 6);
    assert_eq!(rt; Refusal::TooFewRecords.number(), 7);
    Ok(())
}

fn reading(byte: u8, note: Option<ReadNote>) -> Reading {
    Reading { byte, note }
}

// What a set-up board shows of a channel: TDRE alone in ISR; TUR, DTR and RTS in CSR; nothing in RDR.
fn shows_set_up(
    rt: &impl Abort,
    board: &mut Board<Wire, Wire>,
    channel: ChannelId,
    fr: u8,
) -> Result<(), Fail> {
    for (register, due) in [
        (Register::Interrupt, reading(0xc0, None)),
        (Register::Control, reading(0x40 | (fr & 0x03), None)),
        (Register::Data, reading(0x00, Some(ReadNote::Old))),
    ] {
        let select = Place { channel, register }.select();
        assert_eq!(rt; board.read(select)?, due);
    }
    Ok(())
}

#[test]
fn every_pair_of_values_is_accepted_or_refused_by_its_number(rt: HostRuntime) -> Result<(), Fail> {
    for cr in 0..=255u8 {
        for fr in 0..=255u8 {
            let mut board = Board::new(Wire, Wire);
            let answer = board.set_up(cr, fr);
            assert_eq!(rt; answer, due(cr, fr, true), "CR {cr} FR {fr}");
            if answer.is_ok() {
                for channel in ChannelId::BOTH {
                    shows_set_up(&rt, &mut board, channel, fr)?;
                }
            }
        }
    }
    Ok(())
}

// A board whose line A holds the first cycles of a start bit.
fn busy() -> Result<Board<TableLine, Wire>, Refusal> {
    let mut board = Board::new(TableLine::new(), Wire);
    board.set_up(0x0e, 0xe3)?;
    board.write(0, 0xff)?;
    board.write(3, 0x41)?;
    for _ in 0..60 {
        board.cycle();
    }
    Ok(board)
}

#[test]
fn a_line_that_is_not_quiet_is_refused_by_5_after_3_and_4(rt: HostRuntime) -> Result<(), Fail> {
    let mut board = busy()?;
    for cr in 0..=255u8 {
        for fr in 0..=255u8 {
            assert_eq!(rt; board.set_up(cr, fr), due(cr, fr, false), "CR {cr} FR {fr}");
        }
    }
    alike(&rt, &mut board, &mut busy()?, 3000)
}

// A board with a word in TDR1, and its lines still quiet.
fn waiting() -> Result<Board<TableLine, Wire>, Refusal> {
    let mut board = Board::new(TableLine::new(), Wire);
    board.set_up(0x0e, 0xe3)?;
    board.write(3, 0x41)?;
    Ok(board)
}

#[test]
fn a_set_up_that_is_refused_by_3_or_4_leaves_the_board_as_it_was(
    rt: HostRuntime,
) -> Result<(), Fail> {
    let mut board = waiting()?;
    for (cr, fr) in [(0x8e, 0xe3), (0x0f, 0xe3), (0xff, 0x00)] {
        assert_eq!(rt; board.set_up(cr, fr), Err(Refusal::BadControl));
    }
    for (cr, fr) in [(0x0e, 0x63), (0x00, 0x7f), (0x7e, 0x00)] {
        assert_eq!(rt; board.set_up(cr, fr), Err(Refusal::BadFormat));
    }
    alike(&rt, &mut board, &mut waiting()?, 3000)
}

// The low level goes into line A in the cycle behind the first tick.
#[test]
fn a_line_is_not_quiet_as_long_as_it_holds_a_low_level(rt: HostRuntime) -> Result<(), Fail> {
    let mut board = Board::new(TableLine::new(), Wire);
    board.set_up(0x0e, 0xe3)?;
    board.write(3, 0xff)?;
    // a start bit of 96 cycles, from cycle 7 to 102, and then only high levels
    for cycle in 1..=166u16 {
        board.cycle();
        if (7..166).contains(&cycle) {
            assert_eq!(rt;
                board.set_up(0x0e, 0xe3),
                Err(Refusal::LineNotQuiet),
                "{}",
                cycle
            );
        }
    }
    assert_eq!(rt; board.set_up(0x0e, 0xe3), Ok(()));
    Ok(())
}
