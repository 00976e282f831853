// One channel: its registers, its inputs and a cycle.

use super::bits::number_of;
use super::clock::{Clock, Ticks};
use super::inputs::{Input, ModemInputs};
use super::outcome::{ReadNote, ReadOut, Report, WriteNote};
use super::receiver::{Hearing, Receiver};
use super::registers::{Acr, Settings};
use super::sources::{Interrupts, Source, Sources};
use super::transmitter::{Doing, Transmitter, Work};
use super::words::{ErrorFlags, Inbox};

// One channel.
#[derive(Drop)]
pub struct Channel {
    settings: Settings,
    acr: Acr,
    inputs: ModemInputs,
    interrupts: Interrupts,
    outbox: Option<u8>,
    transmitter: Transmitter,
    inbox: Inbox,
    receiver: Receiver,
    clock: Clock,
}

// What a channel holds that its calls do not show, for the counts of a trial.
#[derive(Clone, Copy)]
pub struct View {
    pub requests: Sources,
    pub flags: Sources,
    pub errors: ErrorFlags,
    pub asleep: bool,
    pub show_parity_bit: bool,
    pub tdr_full: bool,
    pub doing: Doing,
    pub hearing: Hearing,
    pub false_starts: u32,
    pub other_format: bool,
}

impl Channel {
    // A channel at power on.
    pub(crate) fn new() -> Channel {
        Channel {
            settings: Settings::new(),
            acr: Acr::default(),
            inputs: ModemInputs::default(),
            interrupts: Interrupts::default(),
            outbox: None,
            transmitter: Transmitter::Rests,
            inbox: Inbox::new(),
            receiver: Receiver::new(),
            clock: Clock::with_code(0),
        }
    }

    // A reset.
    pub(crate) fn reset(&mut self) {
        self.settings.dtr = true;
        self.settings.rts = true;
        self.acr = Acr::default();
        self.inputs.clear_changes();
        self.interrupts = Interrupts::default();
        self.inbox.word = 0;
        self.inbox.errors = ErrorFlags::default();
        self.inbox.wakes_at = None;
    }

    // Bits 6-0 of ISR.
    fn sources(&self) -> Sources {
        Sources::that(|source| match source {
            Source::Tdre => self.outbox.is_none() && !self.inputs.at(Input::Cts).high,
            Source::Ctst => self.inputs.at(Input::Cts).changed,
            Source::Dcdt => self.inputs.at(Input::Dcd).changed,
            Source::Dsrt => self.inputs.at(Input::Dsr).changed,
            Source::Par => self.inbox.errors.parity,
            Source::Fob => self.inbox.errors.faulty(),
            Source::Rdrf => self.inbox.full,
        })
    }

    // Does something, and lets the requests follow the change of the sources. A word is taken where TDR gets empty.
    fn act<T, F: FnOnce(&mut Channel) -> T>(&mut self, action: F) -> T
        requires { F.IsAlwaysCallable action }
    {
        let was = self.sources();
        let was_full = self.outbox.is_some();
        let result = action(self);
        let is = self.sources();
        let word_taken = was_full && self.outbox.is_none();
        self.interrupts.follow(was, is, word_taken);
        result
    }

    // Reads ISR.
    pub(crate) fn read_interrupts(&mut self) -> ReadOut {
        let sources = self.sources();
        let any = sources.any() || self.inputs.at(Input::Cts).high && !self.settings.echo;
        self.inputs.clear_changes();
        self.interrupts.drop_requests();
        ReadOut {
            byte: sources.byte() | u8::from(any) << 7,
            note: None,
        }
    }

    // Reads CSR.
    pub(crate) fn read_status(&self) -> ReadOut {
        let idle = self.sources().has(Source::Tdre)
            && matches!(self.transmitter, Transmitter::Rests);
        let byte = number_of(&[
            self.settings.rts,
            self.settings.dtr,
            self.inbox.errors.broken,
            self.inputs.at(Input::Dsr).high,
            self.inputs.at(Input::Dcd).high,
            self.inputs.at(Input::Cts).high,
            idle,
            self.inbox.errors.framing,
        ]);
        ReadOut { byte, note: None }
    }

    // Reads RDR.
    pub(crate) fn read_data(&mut self) -> ReadOut {
        self.act(|channel| {
            let note = if channel.inbox.full {
                ReadNote::Fresh
            } else {
                ReadNote::Old
            };
            channel.inbox.full = false;
            channel.inbox.errors = ErrorFlags::default();
            ReadOut {
                byte: channel.inbox.word,
                note: Some(note),
            }
        })
    }

    // Writes IER.
    pub(crate) fn write_interrupts(&mut self, byte: u8) {
        self.interrupts.enable(byte);
    }

    // Writes CR or FR.
    pub(crate) fn write_control(&mut self, byte: u8) {
        if byte >= 0x80 {
            self.settings.write_format(byte);
        } else {
            self.settings.write_control(byte);
            self.clock.set_code(byte & 0x0f);
        }
    }

    // Writes CDR or ACR.
    pub(crate) fn write_auxiliary(&mut self, byte: u8) {
        if self.settings.auxiliary_is_acr {
            self.acr = Acr::from(byte);
            return;
        }
        self.act(|channel| {
            channel.inbox.wakes_at = Some(byte);
            channel.inbox.full = false;
        });
    }

    // Writes TDR.
    pub(crate) fn write_data(&mut self, byte: u8) -> WriteNote {
        self.act(|channel| match channel.outbox.replace(byte) {
            Some(_) => WriteNote::Replaced,
            None => WriteNote::Stored,
        })
    }

    // A level of a modem input.
    pub(crate) fn modem(&mut self, input: Input, high: bool) {
        self.act(|channel| channel.inputs.set(input, high));
    }

    // One cycle, given RxD and what RxC and TxC mark.
    pub(crate) fn cycle(&mut self, rxd: bool, marks: Ticks) -> Option<Report> {
        let ticks = self.clock.cycle(marks);
        let report = if ticks.receiver {
            self.receive(rxd)
        } else {
            None
        };
        if ticks.transmitter {
            self.transmit();
        }
        report
    }

    fn receive(&mut self, rxd: bool) -> Option<Report> {
        let heard = self.receiver.tick(rxd, self.settings.layout)?;
        Some(self.act(|channel| { channel.inbox.end_frame(heard, channel.acr.show_parity_bit) }))
    }

    fn transmit(&mut self) {
        let work = Work {
            break_wanted: self.acr.send_break,
            word: if self.inputs.at(Input::Cts).high {
                None
            } else {
                self.outbox
            },
            layout: self.settings.layout,
        };
        if self.transmitter.tick(work) {
            self.act(|channel| channel.outbox = None);
        }
    }

    // The level of TxD.
    pub(crate) fn txd(&self) -> bool {
        self.transmitter.txd()
    }

    // The level of IRQ.
    pub(crate) fn irq(&self) -> bool {
        !self.interrupts.requests.any()
    }

    // What the calls do not show.
    pub(crate) fn view(&self) -> View {
        View {
            requests: self.interrupts.requests,
            flags: self.sources(),
            errors: self.inbox.errors,
            asleep: self.inbox.wakes_at.is_some(),
            show_parity_bit: self.acr.show_parity_bit,
            tdr_full: self.outbox.is_some(),
            doing: self.transmitter.doing(),
            hearing: self.receiver.hearing(),
            false_starts: self.receiver.false_starts(),
            other_format: self
                .receiver
                .layout()
                .is_some_and(|layout| layout.differs(self.settings.layout)),
        }
    }
}
