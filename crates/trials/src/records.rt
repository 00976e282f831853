// The records of a sweep.

use board::record::Record;
use std::alloc::{AllocError, Global};
use terms::channel_id::ChannelId;
use terms::report::ReportKind;

// The cycle of a record that is not written.
const UNWRITTEN: u16 = 60_000;

// So many records before a sweep. Each has another word than the next.
pub(crate) fn blank(heap: Global, room: usize) -> Result<Vec<Record>, AllocError> {
    (0..room)
        .map(|place| Record {
            cycle: UNWRITTEN,
            channel: ChannelId::Two,
            kind: ReportKind::Break,
            word: (place & 0xff) as u8,
        })
        .collect(heap)
}

// Puts the two records of a cycle in the order of their channels.
pub(crate) fn put_in_order(records: &mut [Record]) {
    for of_cycle in records.chunk_by_mut(|one, other| one.cycle == other.cycle) {
        if let [one, other] = of_cycle
            && one.channel == ChannelId::Two
            && other.channel == ChannelId::One
        {
            std::mem::swap(one, other);
        }
    }
}

// Whether two of them are of one cycle.
pub(crate) fn has_neighbours(records: &[Record]) -> bool {
    records
        .array_windows()
        .any(|[one, other]: &[Record; 2]| one.cycle == other.cycle)
}
