// The records that a sweep writes.
ghost use Rattle.std.specs.Prelude.{◌≡◌, ◌+◌, ◌<◌, length};
ghost use Rattle.board.specs.Record.{entry, placed};

use terms::channel_id::ChannelId;
use terms::report::{Report, ReportKind};

// A report of a sweep: the number of its cycle, from 1 in each sweep, its channel, kind and word. These four fields are the record as its
// readers ask for it, so that kind and word are no `Report` here.
#[derive(Clone, Copy, PartialEq, Eq, Debug)]
pub struct Record {
    pub cycle: u16,
    pub channel: ChannelId,
    pub kind: ReportKind,
    pub word: u8,
}

// Writes the record of a report, if there is one, at a place, and answers the next place. The caller lends the records: a sweep asks for no memory.
pub(crate) fn put(
    records: &mut [Record],
    at: usize,
    cycle: u16,
    channel: ChannelId,
    report: Option<Report>,
) -> usize
    requires { at < length records.old }
    ensures counts { result ≡ at + length (entry cycle channel report) }
    ensures writes { records.new ≡ placed records.old at (entry cycle channel report) }
{
    let Some(Report { kind, word }) = report else {
        return at;
    };
    records[at] = Record {
        cycle,
        channel,
        kind,
        word,
    };
    at + 1
}
