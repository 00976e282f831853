// Registers by their names, and how bytes and levels are printed.
ghost use Rattle.std.specs.Prelude.{◌≡◌};
ghost use Rattle.dacia.specs.Access.{select_at};
ghost use Rattle.loopback.specs.Names.{address_of, read_name};

use dacia::access::Place;
use std::fmt;
use terms::channel_id::ChannelId;
use terms::register::Register;

#[derive(Clone, Copy)]
pub(crate) enum Name {
    Isr,
    Ier,
    Csr,
    Cr,
    Fr,
    Rdr,
    Tdr,
}

impl Name {
    // The register address at which it is reached.
    fn register(self) -> Register
        ensures { result ≡ address_of self }
    {
        match self {
            Name::Isr | Name::Ier => Register::Interrupt,
            Name::Csr | Name::Cr | Name::Fr => Register::Control,
            Name::Rdr | Name::Tdr => Register::Data,
        }
    }

    // What a read at a register address reaches; there is nothing to read at the auxiliary one.
    pub(crate) fn read_at(register: Register) -> Name
        ensures { result ≡ read_name register }
    {
        match register {
            Register::Interrupt => Name::Isr,
            Register::Control => Name::Csr,
            Register::Auxiliary | Register::Data => Name::Rdr,
        }
    }

    // The select at which the register is reached.
    pub(crate) fn select(self, channel: ChannelId) -> u8
        ensures { result ≡ select_at channel (address_of self) }
    {
        let register = self.register();
        Place { channel, register }.select()
    }
}

impl fmt::Display for Name {
    fn fmt<W: fmt::Write>(&self, f: &mut fmt::Formatter<W>) -> fmt::Result {
        f.write_str(match self {
            Name::Isr => "ISR",
            Name::Ier => "IER",
            Name::Csr => "CSR",
            Name::Cr => "CR",
            Name::Fr => "FR",
            Name::Rdr => "RDR",
            Name::Tdr => "TDR",
        })
    }
}

// A byte in hexadecimal, with its character where it is a letter or a digit.
#[derive(Clone, Copy)]
pub(crate) struct Word(pub(crate) u8);

impl fmt::Display for Word {
    fn fmt<W: fmt::Write>(&self, f: &mut fmt::Formatter<W>) -> fmt::Result {
        let byte = self.0;
        if byte.is_ascii_alphanumeric() {
            let letter = char::from(byte);
            write!(f, "${byte:02X} '{letter}'")
        } else {
            write!(f, "${byte:02X}")
        }
    }
}

// The bits of ISR and CSR by their weights.
const ISR_BITS: [(u8, &str); 8] = [
    (0x80, "any"),
    (0x40, "TDRE"),
    (0x20, "CTST"),
    (0x10, "DCDT"),
    (0x08, "DSRT"),
    (0x04, "PAR"),
    (0x02, "F/O/B"),
    (0x01, "RDRF"),
];

const CSR_BITS: [(u8, &str); 8] = [
    (0x80, "FE"),
    (0x40, "TUR"),
    (0x20, "CTS"),
    (0x10, "DCD"),
    (0x08, "DSR"),
    (0x04, "BRK"),
    (0x02, "DTR"),
    (0x01, "RTS"),
];

// What was read of a register: a status byte with the names of its set bits, and any other byte as a word.
#[derive(Clone, Copy)]
pub(crate) struct Shown {
    pub(crate) name: Name,
    pub(crate) byte: u8,
}

fn write_bits<W: fmt::Write>(
    f: &mut fmt::Formatter<W>,
    byte: u8,
    names: [(u8, &str); 8],
) -> fmt::Result {
    write!(f, "${byte:02X}")?;
    for (weight, name) in names {
        if byte & weight != 0 {
            write!(f, " {name}")?;
        }
    }
    Ok(())
}

impl fmt::Display for Shown {
    fn fmt<W: fmt::Write>(&self, f: &mut fmt::Formatter<W>) -> fmt::Result {
        match self.name {
            Name::Isr => write_bits(f, self.byte, ISR_BITS),
            Name::Csr => write_bits(f, self.byte, CSR_BITS),
            _ => write!(f, "{}", Word(self.byte)),
        }
    }
}

// A level of a pin.
#[derive(Clone, Copy)]
pub(crate) struct Level(pub(crate) bool);

impl fmt::Display for Level {
    fn fmt<W: fmt::Write>(&self, f: &mut fmt::Formatter<W>) -> fmt::Result {
        f.write_str(if self.0 { "high" } else { "low" })
    }
}
