// CR, FR and ACR, taken apart when they are written.

use super::format::Layout;

// What CR and FR say, but for the rate.
#[derive(Clone, Copy, PartialEq, Eq, Debug)]
pub struct Settings {
    pub auxiliary_is_acr: bool,
    pub echo: bool,
    pub layout: Layout,
    pub dtr: bool,
    pub rts: bool,
}

// What ACR says. At first it is clear.
#[derive(Clone, Copy, PartialEq, Eq, Debug, Default)]
pub struct Acr {
    pub send_break: bool,
    pub show_parity_bit: bool,
}

impl From<u8> for Acr {
    fn from(byte: u8) -> Acr {
        Acr {
            send_break: byte & 0x02 != 0,
            show_parity_bit: byte & 0x01 != 0,
        }
    }
}

impl Settings {
    // CR $00 and FR $00.
    pub(crate) fn new() -> Settings {
        Settings {
            auxiliary_is_acr: false,
            echo: false,
            layout: Layout {
                data_bits: 5,
                parity: None,
                stop_bits: 1,
            },
            dtr: false,
            rts: false,
        }
    }

    // A write to CR.
    pub(crate) fn write_control(&mut self, byte: u8) {
        self.auxiliary_is_acr = byte & 0x40 != 0;
        self.layout = self.layout.with_control(byte);
        self.echo = byte & 0x10 != 0;
    }

    // A write to FR.
    pub(crate) fn write_format(&mut self, byte: u8) {
        self.layout = self.layout.with_format(byte);
        self.dtr = byte & 0x02 != 0;
        self.rts = byte & 0x01 != 0;
    }
}
