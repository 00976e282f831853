// The three modem inputs of a channel.
ghost use Rattle.std.specs.Prelude.{◌≡◌};
ghost use Rattle.terms.specs.ModemLine.{modem_bit};

use std::fmt;

#[derive(Clone, Copy, PartialEq, Eq, Debug)]
pub enum ModemLine {
    Cts = 5,
    Dcd = 4,
    Dsr = 3,
}

impl ModemLine {
    // The bit of CSR that shows the level, and of ISR that shows that it changed.
    pub fn bit(self) -> u8
        ensures { result ≡ modem_bit self }
    {
        self as u8
    }
}

impl fmt::Display for ModemLine {
    fn fmt<W: fmt::Write>(&self, f: &mut fmt::Formatter<W>) -> fmt::Result {
        f.write_str(match self {
            ModemLine::Cts => "CTS",
            ModemLine::Dcd => "DCD",
            ModemLine::Dsr => "DSR",
        })
    }
}
