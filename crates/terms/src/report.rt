// What a channel reports of a cycle in which a frame ended: how it ended. Of any other cycle it reports none.
ghost use Rattle.std.specs.Prelude.{◌≡◌};
ghost use Rattle.terms.specs.Report.{report_number};

use std::fmt;

#[derive(Clone, Copy, PartialEq, Eq, Debug)]
pub enum ReportKind {
    Break = 1,
    Passed = 2,
    Lost = 3,
    Kept = 4,
}

impl ReportKind {
    pub fn number(self) -> u8
        ensures { result ≡ report_number self }
    {
        self as u8
    }
}

impl fmt::Display for ReportKind {
    fn fmt<W: fmt::Write>(&self, f: &mut fmt::Formatter<W>) -> fmt::Result {
        f.write_str(match self {
            ReportKind::Break => "break",
            ReportKind::Passed => "passed",
            ReportKind::Lost => "lost",
            ReportKind::Kept => "kept",
        })
    }
}

// Passed, lost and kept carry the word, a break carries 0, so that a report has a kind and a word as the record of a sweep has.
#[derive(Clone, Copy, PartialEq, Eq, Debug)]
pub struct Report {
    pub kind: ReportKind,
    pub word: u8,
}
