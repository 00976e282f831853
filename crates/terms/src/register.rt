// The four register addresses of a channel. Each is one register for reading and another for writing:
// ISR and IER, CSR and CR or FR, nothing and CDR or ACR, RDR and TDR.
ghost use Rattle.std.specs.Prelude.{◌≡◌};
ghost use Rattle.terms.specs.Register.{register_number};

#[derive(Clone, Copy)]
pub enum Register {
    Interrupt = 0,
    Control = 1,
    Auxiliary = 2,
    Data = 3,
}

impl Register {
    // The select of the register in channel 1; channel 2 has the same four from 4 on.
    pub fn number(self) -> u8
        ensures { result ≡ register_number self }
    {
        self as u8
    }
}
