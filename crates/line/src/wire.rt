// A wire holds no level: what it is given it answers.
ghost use Rattle.std.specs.Prelude.{[]};

use crate::line::Line;

#[derive(Clone, Copy)]
pub struct Wire;

impl Line for Wire {
    ghost levels = { λ _. [] };

    fn pass(&mut self, level: bool) -> bool {
        level
    }

    fn is_quiet(&self) -> bool {
        true
    }
}
