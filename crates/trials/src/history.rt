// A history: what is played on, and the calls.

use crate::call::Call;
use std::fmt;

// The kinds of lines: none held, 64 levels, two of these joined, and two such joints joined.
#[derive(Clone, Copy, PartialEq, Eq, Debug)]
pub(crate) enum Kind {
    Wire,
    Table,
    Joint,
    JointOfJoints,
}

// A line of a board, and the seed of the levels that it is given beforehand, if it is given any.
#[derive(Clone, Copy, PartialEq, Eq, Debug)]
pub(crate) struct Cable {
    pub(crate) kind: Kind,
    pub(crate) fed: Option<u64>,
}

// A chip, or a board with its lines from channel 1 and back.
#[derive(Clone, Copy, PartialEq, Eq, Debug)]
pub(crate) enum Device {
    Chip,
    Board { there: Cable, back: Cable },
}

#[derive(Drop)]
pub(crate) struct History {
    pub(crate) seed: u64,
    pub(crate) device: Device,
    pub(crate) calls: Vec<Call>,
}

impl fmt::Display for Kind {
    fn fmt<W: fmt::Write>(&self, f: &mut fmt::Formatter<W>) -> fmt::Result {
        f.write_str(match self {
            Kind::Wire => "a wire",
            Kind::Table => "a table line",
            Kind::Joint => "a joint of table lines",
            Kind::JointOfJoints => "a joint of joints",
        })
    }
}

impl fmt::Display for Cable {
    fn fmt<W: fmt::Write>(&self, f: &mut fmt::Formatter<W>) -> fmt::Result {
        let kind = self.kind;
        match self.fed {
            Some(seed) => write!(f, "{kind} (fed from {seed})"),
            None => write!(f, "{kind}"),
        }
    }
}

impl fmt::Display for Device {
    fn fmt<W: fmt::Write>(&self, f: &mut fmt::Formatter<W>) -> fmt::Result {
        match self {
            Device::Chip => f.write_str("a chip"),
            Device::Board { there, back } => write!(f, "a board, line A {there}, line B {back}"),
        }
    }
}
