// What became of the words of one direction.
ghost use Rattle.std.specs.Prelude.{◌≡◌, [], is_ok, string_bytes};
ghost use Rattle.loopback.specs.Tally.{no_counts, write_counted, report_counted, read_counted, read_text, more};

use std::alloc::{AllocError, Global};
use std::{fmt, io};
use terms::channel_id::ChannelId;
use terms::note::{ReadNote, Reading, WriteNote};
use terms::report::ReportKind;

// A count, which stops at the greatest number of its type.
#[derive(Clone, Copy, Default)]
struct Count(u32);

impl Count {
    fn add_one(&mut self)
        ensures { self.new ≡ more self.old }
    {
        self.0 = self.0.saturating_add(1);
    }
}

impl fmt::Display for Count {
    fn fmt<W: fmt::Write>(&self, f: &mut fmt::Formatter<W>) -> fmt::Result {
        write!(f, "{}", self.0)
    }
}

#[derive(Clone, Copy, Default)]
pub(crate) struct Counts {
    written: Count,
    replaced: Count,
    kept: Count,
    lost: Count,
    read: Count,
}

// The counts, and the text of the words that were read.
#[derive(Drop)]
pub(crate) struct Tally {
    counts: Counts,
    text: String,
}

impl Tally {
    pub(crate) fn new(heap: Global) -> Tally
        ensures counts { result.counts ≡ no_counts }
        ensures text { string_bytes result.text ≡ [] }
    {
        Tally {
            counts: Counts::default(),
            text: String::new(heap),
        }
    }

    // Only a write to TDR has a note.
    pub(crate) fn count_write(&mut self, note: Option<WriteNote>)
        ensures counts { self.new.counts ≡ write_counted note self.old.counts }
        ensures text { string_bytes self.new.text ≡ string_bytes self.old.text }
    {
        match note {
            None => {}
            Some(WriteNote::Stored) => self.counts.written.add_one(),
            Some(WriteNote::Replaced) => {
                self.counts.written.add_one();
                self.counts.replaced.add_one();
            }
        }
    }

    pub(crate) fn count_report(&mut self, kind: ReportKind)
        ensures counts { self.new.counts ≡ report_counted kind self.old.counts }
        ensures text { string_bytes self.new.text ≡ string_bytes self.old.text }
    {
        match kind {
            ReportKind::Kept => self.counts.kept.add_one(),
            ReportKind::Lost => self.counts.lost.add_one(),
            _ => {}
        }
    }

    // Only a read of a full RDR is fresh; its word goes to the text, which may want memory.
    pub(crate) fn count_read(&mut self, reading: Reading) -> Result<(), AllocError>
        ensures counts { self.new.counts ≡ read_counted reading.note self.old.counts }
        ensures text { string_bytes self.new.text ≡ read_text reading.note reading.byte (is_ok result) (string_bytes self.old.text) }
    {
        if let Some(ReadNote::Fresh) = reading.note {
            self.counts.read.add_one();
            self.text.push(char::from(reading.byte))?;
        }
        Ok(())
    }

    pub(crate) fn tell(&self, rt: &HostRuntime, from: ChannelId) -> io::Result<()> {
        let Counts {
            written,
            replaced,
            kept,
            lost,
            read,
        } = self.counts;
        println!(rt;
            "From {} to {}: {written} words written, {replaced} replaced, {kept} kept, {lost} lost, {read} read: \"{}\".",
            from.number(),
            from.other().number(),
            self.text.as_str()
        )
    }
}
