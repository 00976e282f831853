// The interface of a line. Whoever writes a line proves these contracts, and gets everything that is proved above them.
ghost use Rattle.std.specs.Prelude.{◌≡◌, Bool, List, length};
ghost use Rattle.std.proofs.Common.{ap, ◌∙◌};
ghost use Rattle.line.specs.Line.{leaves, held, length_held, all_high};

pub trait Line {
    // the levels that it holds
    ghost levels: { Self → List Bool };

    // Puts a level last, and answers the first, which leaves.
    fn pass(&mut self, level: bool) -> bool
        ensures answers { result ≡ leaves (levels self.old) level }
        ensures holds { levels self.new ≡ held (levels self.old) level };

    // Whether all held levels are high.
    fn is_quiet(&self) -> bool
        ensures { result ≡ all_high (levels self.now) };

    // The number of levels never changes; this follows from the contract of `pass`, for every line.
    ghost same_number: { (s t : Self) (l : Bool) → levels t ≡ held (levels s) l → length (levels t) ≡ length (levels s) } = { λ s t l e. ap length e ∙ length_held (levels s) l };
}
