// Shortens a history that differs.

use crate::call::Call;
use crate::counts::Counts;
use crate::history::{Device, History};
use crate::play::Trial;
use crate::stop::{Difference, Stop};
use std::alloc::{AllocError, Global};
use std::fmt;

// How often a shorter history is tried at most.
const TRIES: u32 = 4_000;

// A history and where it differs.
#[derive(Drop)]
pub(crate) struct Found {
    pub(crate) history: History,
    pub(crate) difference: Difference,
}

// The difference of calls, if they have one.
fn difference(heap: Global, device: Device, calls: &[Call]) -> Option<Difference> {
    let mut counts = Counts::new();
    let trial = Trial {
        heap,
        calls,
        counts: &mut counts,
    };
    match trial.play(device) {
        Err(Stop::Differs(difference)) => Some(difference),
        _ => None,
    }
}

impl Found {
    // The calls up to the one that differs, without some.
    fn without(&self, heap: Global, from: usize, count: usize) -> Result<Vec<Call>, AllocError> {
        let calls = self.history.calls.iter();
        let calls = calls.take(self.difference.place.call.saturating_add(1));
        let left_out = from..from.saturating_add(count);
        calls
            .enumerate()
            .filter(|(place, _)| !left_out.contains(place))
            .map(|(_, call)| *call)
            .collect(heap)
    }

    // Takes the calls if they still differ.
    fn take(&mut self, heap: Global, calls: Vec<Call>) -> bool {
        let Some(difference) = difference(heap, self.history.device, &calls) else {
            return false;
        };
        self.history.calls = calls;
        self.difference = difference;
        true
    }

    // Leaves out ever smaller parts, as long as the history still differs. The place is moved by hand, as the calls grow fewer.
    pub(crate) fn shorten(&mut self, heap: Global) -> Result<(), AllocError> {
        let mut part = self.history.calls.len();
        let mut at = 0usize;
        for _ in 0..TRIES {
            if at >= self.history.calls.len() {
                if part <= 1 {
                    break;
                }
                part /= 2;
                at = 0;
            }
            let calls = self.without(heap, at, part)?;
            if !self.take(heap, calls) {
                at = at.saturating_add(part);
            }
        }
        Ok(())
    }
}

impl fmt::Display for Found {
    fn fmt<W: fmt::Write>(&self, f: &mut fmt::Formatter<W>) -> fmt::Result {
        let History {
            seed,
            device,
            calls,
        } = &self.history;
        write!(
            f,
            "Seed {seed}, {} calls of {device}:\n  {}",
            calls.len(),
            self.difference
        )
    }
}
