// A line that holds 64 levels in a table.
ghost use Rattle.std.specs.Prelude.{◌≡◌, ◌%◌, true, replicate};
ghost use Rattle.line.specs.TableLine.{held64};

use crate::line::Line;

const SIZE: usize = 64;

// The first level stands at `head`, modulo the size of the table, and the others follow it round.
// It is an array with its place: the array says by its type that there are always 64 levels, and a line, which is never refused, may ask for
// no memory. A queue would have to keep that number as an invariant.
#[derive(Drop)]
pub struct TableLine {
    table: [bool; SIZE],
    head: usize,
}

impl TableLine {
    // A line with all levels high.
    pub fn new() -> TableLine
        ensures { held64 result ≡ replicate 64 true }
    {
        TableLine {
            table: [true; SIZE],
            head: 0,
        }
    }
}

impl Line for TableLine {
    ghost levels = { λ t. held64 t };

    fn pass(&mut self, level: bool) -> bool {
        let at = self.head % SIZE;
        let first = self.table[at];
        self.table[at] = level;
        self.head = at + 1;
        first
    }

    fn is_quiet(&self) -> bool {
        self.table.iter().all(|level| *level)
    }
}
