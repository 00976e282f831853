// A line of any kind: a queue of levels whose length never changes.

use arrayvec::ArrayVec;
use std::mem;

// The most levels that a line can hold.
const MOST: usize = 256;

// A line as the levels that it holds, in a ring, and the place of the next one to leave: a level comes in where another has left,
// so that none of the others is moved.
#[derive(Drop)]
pub struct Delay {
    held: ArrayVec<bool, MOST>,
    first: usize,
}

impl Delay {
    // A line that holds some levels, all high: none for a wire, 64 for a table line.
    pub fn new(length: usize) -> Delay {
        let mut held = ArrayVec::from([true; MOST]);
        held.truncate(length);
        Delay { held, first: 0 }
    }

    // Two lines as one, the first feeding the second.
    pub fn joined(mut first: Delay, mut second: Delay) -> Delay {
        let mut both = Delay::new(first.held.len() + second.held.len());
        for _ in 0..second.held.len() {
            both.pass(second.pass(true));
        }
        for _ in 0..first.held.len() {
            both.pass(first.pass(true));
        }
        both
    }

    // Gives a level to the line, and answers the level that leaves it.
    pub fn pass(&mut self, level: bool) -> bool {
        let Some(place) = self.held.get_mut(self.first) else {
            return level;
        };
        let leaves = mem::replace(place, level);
        let next = self.first.saturating_add(1);
        self.first = if next < self.held.len() { next } else { 0 };
        leaves
    }

    // Whether no low level is in the line.
    pub fn is_quiet(&self) -> bool {
        self.held.iter().all(|level| *level)
    }
}
