// The seven interrupt sources as sets, and the requests that they raise.

use super::bits::number_of;

// The interrupt sources, from bit 0 of ISR up.
#[derive(Clone, Copy, PartialEq, Eq, Debug)]
pub enum Source {
    Rdrf,
    Fob,
    Par,
    Dsrt,
    Dcdt,
    Ctst,
    Tdre,
}

// A set of interrupt sources: for each source, whether it is in the set.
#[derive(Clone, Copy, PartialEq, Eq, Debug, Default)]
pub struct Sources([bool; 7]);

impl Sources {
    // The sources that pass a test. They are written out, as a `map` over a list of them took a quarter longer.
    pub(crate) fn that<F: Fn(Source) -> bool>(test: F) -> Sources
        requires { F.IsAlwaysCallable test }
    {
        Sources([
            test(Source::Rdrf),
            test(Source::Fob),
            test(Source::Par),
            test(Source::Dsrt),
            test(Source::Dcdt),
            test(Source::Ctst),
            test(Source::Tdre),
        ])
    }

    // The sources that bits 6-0 of a byte name.
    pub(crate) fn named_by(byte: u8) -> Sources {
        Sources::that(|source| byte >> source as u8 & 1 == 1)
    }

    // The set as bits 6-0 of a byte.
    pub fn byte(self) -> u8 {
        number_of(&self.0)
    }

    // Whether a source is in the set.
    pub(crate) fn has(self, source: Source) -> bool {
        self.0[source as usize]
    }

    // Whether any source is in the set.
    pub(crate) fn any(self) -> bool {
        self != Sources::default()
    }
}

// Which sources may ask for an interrupt, and which do. At first none.
#[derive(Clone, Copy, PartialEq, Eq, Debug, Default)]
pub struct Interrupts {
    pub enabled: Sources,
    pub requests: Sources,
}

impl Interrupts {
    // Drops all requests.
    pub(crate) fn drop_requests(&mut self) {
        self.requests = Sources::default();
    }

    // A write to IER: enables the named sources, or disables them and drops their requests.
    pub(crate) fn enable(&mut self, byte: u8) {
        let named = Sources::named_by(byte);
        let Interrupts { enabled, requests } = *self;
        if byte >= 0x80 {
            self.enabled = Sources::that(|source| enabled.has(source) || named.has(source));
        } else {
            self.enabled = Sources::that(|source| enabled.has(source) && !named.has(source));
            self.requests = Sources::that(|source| requests.has(source) && !named.has(source));
        }
    }

    // Compares the sources before and after an action. A request stands where its bit is set and it stood before,
    // or is enabled and has risen. TDRE asks only where the transmitter took a word.
    pub(crate) fn follow(&mut self, was: Sources, is: Sources, word_taken: bool) {
        let Interrupts { enabled, requests } = *self;
        self.requests = Sources::that(|source| {
            let rises = match source {
                Source::Tdre => word_taken,
                _ => !was.has(source),
            };
            is.has(source) && (requests.has(source) || enabled.has(source) && rises)
        });
    }
}
