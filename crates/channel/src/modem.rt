// The modem inputs of a channel: three levels, and whether each has changed since ISR was last read.
ghost use Rattle.std.specs.Prelude.{◌≡◌};
ghost use Rattle.channel.specs.Modem.{input_set, modem_set, seen};

use terms::modem_line::ModemLine;

#[derive(Clone, Copy, Default)]
pub struct ModemInput {
    pub(crate) level: bool,
    pub(crate) changed: bool,
}

impl ModemInput {
    pub(crate) fn set(&mut self, level: bool)
        ensures { self.new ≡ input_set level self.old }
    {
        if self.level != level {
            self.level = level;
            self.changed = true;
        }
    }
}

// Three fields and no array by the line: a channel asks for each input by its name, and only a new level comes with the line as a value.
#[derive(Clone, Copy, Default)]
pub struct Modem {
    pub(crate) cts: ModemInput,
    pub(crate) dcd: ModemInput,
    pub(crate) dsr: ModemInput,
}

impl Modem {
    pub(crate) fn set(&mut self, line: ModemLine, level: bool)
        ensures { self.new ≡ modem_set line level self.old }
    {
        match line {
            ModemLine::Cts => self.cts.set(level),
            ModemLine::Dcd => self.dcd.set(level),
            ModemLine::Dsr => self.dsr.set(level),
        }
    }

    // Clears the three marks of change.
    pub(crate) fn clear_changes(&mut self)
        ensures { self.new ≡ seen self.old }
    {
        self.cts.changed = false;
        self.dcd.changed = false;
        self.dsr.changed = false;
    }
}
