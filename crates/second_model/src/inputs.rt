// The modem inputs of a channel.

// The modem inputs.
#[derive(Clone, Copy, PartialEq, Eq, Debug)]
pub enum Input {
    Cts,
    Dcd,
    Dsr,
}

// A level, and whether it has changed since ISR was read.
#[derive(Clone, Copy, PartialEq, Eq, Debug, Default)]
pub struct Watched {
    pub high: bool,
    pub changed: bool,
}

// The three of a channel. At first they are low, and not changed.
#[derive(Clone, Copy, PartialEq, Eq, Debug, Default)]
pub struct ModemInputs([Watched; 3]);

impl ModemInputs {
    // What is known of an input.
    pub(crate) fn at(&self, input: Input) -> Watched {
        self.0[input as usize]
    }

    // Gives a level to an input.
    pub(crate) fn set(&mut self, input: Input, high: bool) {
        if self.at(input).high != high {
            self.0[input as usize] = Watched {
                high,
                changed: true,
            };
        }
    }

    // Forgets the changes.
    pub(crate) fn clear_changes(&mut self) {
        for watched in &mut self.0 {
            watched.changed = false;
        }
    }
}
