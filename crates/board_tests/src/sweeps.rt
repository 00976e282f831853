// Sweeps: what they refuse, what they write, and what they leave.
use crate::twins::alike;
use board::board::Board;
use board::record::Record;
use line::table_line::TableLine;
use line::wire::Wire;
use std::alloc::{AllocError, Global};
use std::process::Abort;
use std::test::Fail;
use terms::channel_id::ChannelId;
use terms::refusal::Refusal;
use terms::report::ReportKind;

// A record that no sweep writes: its cycle is past every sweep.
const UNTOUCHED: Record = Record {
    cycle: 9999,
    channel: ChannelId::Two,
    kind: ReportKind::Break,
    word: 0x77,
};

fn kept(cycle: u16, channel: ChannelId, word: u8) -> Record {
    Record {
        cycle,
        channel,
        kind: ReportKind::Kept,
        word,
    }
}

fn untouched(heap: Global, count: usize) -> Result<Vec<Record>, AllocError> {
    vec![in heap; UNTOUCHED; count]
}

// A board with a word in each TDR.
fn sending() -> Result<Board<TableLine, Wire>, Refusal> {
    let mut board = Board::new(TableLine::new(), Wire);
    board.set_up(0x0e, 0xe3)?;
    board.write(3, 0x41)?;
    board.write(7, 0x42)?;
    Ok(board)
}

// The records from a place on are as they were.
fn untouched_from(rt: &impl Abort, records: &[Record], from: usize) {
    for record in records.iter().skip(from) {
        assert_eq!(rt; *record, UNTOUCHED);
    }
}

// A sweep that is refused by a number, and leaves board and records as they were.
fn refuses(
    rt: &(impl Abort + Alloc<A = Global>),
    cycles: u16,
    room: usize,
    due: Refusal,
) -> Result<(), Fail> {
    let mut records = untouched(rt.alloc(), room)?;
    let mut board = sending()?;
    let answer = board.sweep(cycles, records.as_mut_slice());
    assert_eq!(rt; answer, Err(due), "{cycles} cycles, {room} records");
    untouched_from(rt, records.as_slice(), 0);
    alike(rt, &mut board, &mut sending()?, 2000)
}

#[test]
fn sweeps_of_0_and_of_more_than_2048_are_refused_by_6(rt: HostRuntime) -> Result<(), Fail> {
    for cycles in [0, 2049, 4096, 65535] {
        for room in [0, 4096, 4098] {
            refuses(&rt, cycles, room, Refusal::BadSweepLength)?;
        }
    }
    Ok(())
}

#[test]
fn sweeps_with_too_few_records_are_refused_by_7(rt: HostRuntime) -> Result<(), Fail> {
    for (cycles, room) in [
        (1, 0),
        (1, 1),
        (2, 3),
        (1000, 1999),
        (2048, 0),
        (2048, 4095),
    ] {
        refuses(&rt, cycles, room, Refusal::TooFewRecords)?;
    }
    Ok(())
}

// A sweep takes as many cycles as it says: the board is then as after so many single cycles.
fn runs(
    rt: &(impl Abort + Alloc<A = Global>),
    cycles: u16,
    room: usize,
    count: usize,
) -> Result<(), Fail> {
    let mut records = untouched(rt.alloc(), room)?;
    let mut board = sending()?;
    let answer = board.sweep(cycles, records.as_mut_slice());
    assert_eq!(rt; answer, Ok(count), "{}", cycles);
    untouched_from(rt, records.as_slice(), count);
    let mut twin = sending()?;
    for _ in 0..cycles {
        twin.cycle();
    }
    alike(rt, &mut board, &mut twin, 2000)
}

#[test]
fn a_sweep_takes_its_cycles(rt: HostRuntime) -> Result<(), Fail> {
    runs(&rt, 1, 2, 0)?;
    runs(&rt, 923, 1846, 0)?;
    runs(&rt, 924, 1848, 1)?;
    runs(&rt, 2047, 4096, 2)?;
    runs(&rt, 2048, 4096, 2)?;
    runs(&rt, 2048, 5000, 2)
}

// Both start bits go into the lines in cycle 7. The wire hands it on at once, so that the receiver sees it at the tick of cycle 12;
// line A hands it on in cycle 71, and the receiver sees it at the tick of cycle 72. The stop bit is taken 152 ticks later.
#[test]
fn a_sweep_of_2048_writes_what_the_channels_report(rt: HostRuntime) -> Result<(), Fail> {
    let mut records = untouched(rt.alloc(), 4096)?;
    let mut board = sending()?;
    assert_eq!(rt; board.sweep(2048, records.as_mut_slice()), Ok(2));
    assert!(rt; records.len() == 4096);
    assert_eq!(rt; records[0], kept(924, ChannelId::One, 0x42));
    assert_eq!(rt; records[1], kept(984, ChannelId::Two, 0x41));
    untouched_from(&rt, records.as_slice(), 2);
    Ok(())
}

// Over two wires both words come in the same cycle, and channel 1 stands first.
#[test]
fn of_two_reports_in_a_cycle_that_of_channel_1_stands_first(rt: HostRuntime) -> Result<(), Fail> {
    let mut records = untouched(rt.alloc(), 4096)?;
    let mut board = Board::new(Wire, Wire);
    board.set_up(0x0e, 0xe3)?;
    board.write(3, 0x41)?;
    board.write(7, 0x42)?;
    assert_eq!(rt; board.sweep(2000, records.as_mut_slice()), Ok(2));
    assert!(rt; records.len() == 4096);
    assert_eq!(rt; records[0], kept(924, ChannelId::One, 0x42));
    assert_eq!(rt; records[1], kept(924, ChannelId::Two, 0x41));
    Ok(())
}

// The cycles of the second sweep are numbered from 1 again.
#[test]
fn each_sweep_numbers_its_cycles_from_1(rt: HostRuntime) -> Result<(), Fail> {
    let mut records = untouched(rt.alloc(), 4096)?;
    let mut board = sending()?;
    assert_eq!(rt; board.sweep(900, records.as_mut_slice()), Ok(0));
    assert_eq!(rt; board.sweep(900, records.as_mut_slice()), Ok(2));
    assert!(rt; records.len() == 4096);
    assert_eq!(rt; records[0], kept(24, ChannelId::One, 0x42));
    assert_eq!(rt; records[1], kept(84, ChannelId::Two, 0x41));
    Ok(())
}
