// The receiving side of a channel: RDR, its flags, and the receiver that fills it.
ghost use Rattle.std.specs.Prelude.{◌≡◌, Bool};
ghost use Rattle.serial.specs.Frame.{bit};
ghost use Rattle.channel.specs.Control.{format_of};
ghost use Rattle.channel.specs.Receiving.{reading, emptied, ending, heard_by};

use crate::bits::is_set;
use crate::control::Control;
use serial::receiver::{Received, Receiver};
use terms::note::{ReadNote, Reading};
use terms::report::{Report, ReportKind};

// The flags that a read of RDR clears besides RDRF.
#[derive(Clone, Copy, Default)]
pub struct Errors {
    pub(crate) par: bool,
    pub(crate) fe: bool,
    pub(crate) ovr: bool,
    pub(crate) brk: bool,
}

// RDRF is a flag beside RDR, which keeps its word when it was read; and `asleep` is one beside CDR, which is a register of its own: a reset
// wakes the receiver and leaves CDR.
#[derive(Clone, Copy)]
pub struct Receiving {
    pub(crate) rdr: u8,
    pub(crate) rdrf: bool,
    pub(crate) errors: Errors,
    pub(crate) asleep: bool,
    pub(crate) receiver: Receiver,
}

impl Receiving {
    // A read of RDR.
    pub(crate) fn read(&mut self) -> Reading
        ensures answers { result ≡ reading self.old }
        ensures leaves { self.new ≡ emptied self.old }
    {
        let note = if self.rdrf {
            ReadNote::Fresh
        } else {
            ReadNote::Old
        };
        self.rdrf = false;
        self.errors = Errors::default();
        Reading {
            byte: self.rdr,
            note: Some(note),
        }
    }

    // A frame has ended: the first rule that applies.
    fn end(&mut self, frame: Received, control: Control) -> Report
        ensures { (Some result, self.new) ≡ ending frame control.cdr (bit control.acr 0) self.old }
    {
        if frame.low {
            self.errors.brk = true;
            return Report {
                kind: ReportKind::Break,
                word: 0,
            };
        }
        let word = frame.word;
        let kind = if self.asleep {
            self.asleep = word != control.cdr;
            ReportKind::Passed
        } else if self.rdrf {
            self.errors.ovr = true;
            ReportKind::Lost
        } else {
            self.rdr = word;
            self.rdrf = true;
            self.errors.fe = !frame.stop;
            let show_bit = is_set(control.acr, 0);
            self.errors.par = if show_bit { frame.parity } else { frame.wrong };
            ReportKind::Kept
        };
        Report { kind, word }
    }

    // One tick of the receiver, with the registers as they are now and the level of RxD; answers how a frame ended here, if one did.
    pub(crate) fn tick(&mut self, control: Control, level: bool) -> Option<Report>
        ensures { (result, self.new) ≡ heard_by (format_of control.cr control.fr) control.cdr (bit control.acr 0) level self.old }
    {
        let frame = self.receiver.tick(control.format(), level)?;
        Some(self.end(frame, control))
    }
}
