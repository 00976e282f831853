// Two lines as one: the first feeds the second.
ghost use Rattle.std.specs.Prelude.{◌≡◌, ◌++◌};

use crate::line::Line;

#[derive(Drop)]
pub struct Joint<A, B> {
    first: A,
    second: B,
}

impl<A, B> Joint<A, B> {
    pub fn new(first: A, second: B) -> Joint<A, B>
        ensures { (result.first ≡ first) × (result.second ≡ second) }
    {
        Joint { first, second }
    }
}

impl<A: Line, B: Line> Line for Joint<A, B> {
    ghost levels = { λ j. B.Line.levels j.second ++ A.Line.levels j.first };

    fn pass(&mut self, level: bool) -> bool {
        let middle = self.first.pass(level);
        self.second.pass(middle)
    }

    fn is_quiet(&self) -> bool {
        self.first.is_quiet() && self.second.is_quiet()
    }
}
