// One channel: what a read, a write, a modem level, a reset and a cycle do to it and answer.
ghost use Rattle.std.specs.Prelude.{◌≡◌, Bool, true, false};
ghost use Rattle.serial.specs.Transmitter.{level};
ghost use Rattle.channel.specs.Receiving.{reading};
ghost use Rattle.channel.specs.Sender.{tdr_note};
ghost use Rattle.std.specs.Fn.{FnOnceReturnsAtMut};
ghost use Rattle.channel.specs.Channel.{following, powered_on, after_reset, tdre, flags, any_set, isr_of, csr_of, isr_read, rdr_read, control_written, auxiliary_written, tdr_written, modem_changed, heard_on, sent_on, clocked, txd_of, irq_of};
ghost use Rattle.channel.specs.Calls.{read_answer, after_read, write_answer, after_write, cycled};

use crate::bits::{byte_of, is_set};
use crate::control::Control;
use crate::interrupts::{ALL, ALL_BUT_TDRE, Interrupts};
use crate::modem::Modem;
use crate::receiving::{Errors, Receiving};
use crate::sender::Sender;
use serial::receiver::Receiver;
use serial::transmitter::{Setting, Transmitter};
use terms::modem_line::ModemLine;
use terms::note::{Reading, WriteNote};
use terms::refusal::Refusal;
use terms::register::Register;
use terms::report::Report;

#[derive(Clone, Copy)]
pub struct Channel {
    control: Control,
    modem: Modem,
    interrupts: Interrupts,
    sender: Sender,
    receiving: Receiving,
    count: u16,
}

// Which of its two parts a cycle ticks: RxC ticks the receiver, TxC the transmitter. At rate code 15 they are marked from outside.
#[derive(Clone, Copy, PartialEq, Eq, Debug)]
pub struct Marks {
    pub rxc: bool,
    pub txc: bool,
}

// What a channel answers to a cycle: its levels as the cycle leaves them, and its report, if a frame ended.
#[derive(Clone, Copy, PartialEq, Eq, Debug)]
pub struct ChannelAnswer {
    pub txd: bool,
    pub irq: bool,
    pub report: Option<Report>,
}

impl Channel {
    // A channel at power on.
    pub fn power_on() -> Channel
        ensures { result ≡ powered_on }
    {
        Channel {
            control: Control::default(),
            modem: Modem::default(),
            interrupts: Interrupts::default(),
            sender: Sender {
                tdr: None,
                transmitter: Transmitter::Resting,
            },
            receiving: Receiving {
                rdr: 0,
                rdrf: true,
                errors: Errors::default(),
                asleep: false,
                receiver: Receiver::Hunting,
            },
            count: 0,
        }
    }

    pub fn reset(&mut self)
        ensures { self.new ≡ after_reset self.old }
    {
        self.control.fr |= 3;
        self.control.acr = 0;
        self.modem.clear_changes();
        self.interrupts = Interrupts::default();
        self.receiving.rdr = 0;
        self.receiving.errors = Errors::default();
        self.receiving.asleep = false;
    }

    // TDR is empty and CTS is low.
    fn tdre(&self) -> bool
        ensures { result ≡ tdre self.now }
    {
        self.sender.tdr.is_none() && !self.modem.cts.level
    }

    // The interrupt sources in bits 6-0, below the given bit 7.
    fn flags(&self, top: bool) -> u8
        ensures { result ≡ flags top self.now }
    {
        let errors = self.receiving.errors;
        byte_of(
            top,
            self.tdre(),
            self.modem.cts.changed,
            self.modem.dcd.changed,
            self.modem.dsr.changed,
            errors.par,
            errors.fe || errors.brk || errors.ovr,
            self.receiving.rdrf,
        )
    }

    // Bit 7 of ISR.
    fn any(&self) -> bool
        ensures { result ≡ any_set self.now }
    {
        self.flags(false) != 0 || (self.modem.cts.level && !is_set(self.control.cr, 4))
    }

    // An action, after which the requests follow the sources.
    fn following<R, F: FnOnce(&mut Channel) -> R>(&mut self, may: u8, act: F) -> R
        requires { F.IsAlwaysCallable act }
        ensures { (acted : Channel) × FnOnceReturnsAtMut F.FnOnce act self.old result acted × (self.new ≡ following may self.old acted) }
    {
        let before = self.flags(false);
        let answer = act(self);
        let after = self.flags(false);
        self.interrupts.follow(may, before, after);
        answer
    }

    // ISR, which drops all requests and forgets the modem changes.
    fn read_isr(&mut self) -> u8
        ensures answers { result ≡ isr_of self.old }
        ensures leaves { self.new ≡ isr_read self.old }
    {
        let top = self.any();
        let isr = self.flags(top);
        self.modem.clear_changes();
        self.interrupts.requests = 0;
        isr
    }

    fn read_csr(&self) -> u8
        ensures { result ≡ csr_of self.now }
    {
        byte_of(
            self.receiving.errors.fe,
            self.tdre() && self.sender.transmitter.is_resting(),
            self.modem.cts.level,
            self.modem.dcd.level,
            self.modem.dsr.level,
            self.receiving.errors.brk,
            is_set(self.control.fr, 1),
            is_set(self.control.fr, 0),
        )
    }

    fn read_rdr(&mut self) -> Reading
        ensures answers { result ≡ reading self.old.receiving }
        ensures leaves { self.new ≡ rdr_read self.old }
    {
        self.following(ALL_BUT_TDRE, |channel| channel.receiving.read())
    }

    // Bit 7 clear: CR; set: FR.
    fn write_control(&mut self, byte: u8)
        ensures { self.new ≡ control_written byte self.old }
    {
        if is_set(byte, 7) {
            self.control.fr = byte;
        } else {
            let code = self.control.rate_code();
            self.control.cr = byte;
            if self.control.rate_code() != code {
                self.count = 0;
            }
        }
    }

    // CR bit 6 clear: CDR, which puts the receiver to sleep; set: ACR.
    fn write_auxiliary(&mut self, byte: u8)
        ensures { self.new ≡ auxiliary_written byte self.old }
    {
        if is_set(self.control.cr, 6) {
            self.control.acr = byte % 4;
        } else {
            self.following(ALL_BUT_TDRE, |channel| {
                channel.control.cdr = byte;
                channel.receiving.asleep = true;
                channel.receiving.rdrf = false;
            });
        }
    }

    fn write_tdr(&mut self, byte: u8) -> WriteNote
        ensures answers { result ≡ tdr_note self.old.sender }
        ensures leaves { self.new ≡ tdr_written byte self.old }
    {
        self.following(ALL_BUT_TDRE, |channel| channel.sender.write(byte))
    }

    // A level on a modem input.
    pub fn set_modem(&mut self, line: ModemLine, level: bool)
        ensures { self.new ≡ modem_changed line level self.old }
    {
        self.following(ALL_BUT_TDRE, |channel| channel.modem.set(line, level));
    }

    pub fn txd(&self) -> bool
        ensures { result ≡ txd_of self.now }
    {
        self.sender.transmitter.level()
    }

    pub fn irq(&self) -> bool
        ensures { result ≡ irq_of self.now }
    {
        self.interrupts.irq()
    }

    // A tick of the receiver.
    fn hear(&mut self, level: bool) -> Option<Report>
        ensures { (result, self.new) ≡ heard_on level self.old }
    {
        self.following(ALL_BUT_TDRE, |channel| {
            channel.receiving.tick(channel.control, level)
        })
    }

    // A tick of the transmitter.
    fn send(&mut self)
        ensures { self.new ≡ sent_on self.old }
    {
        self.following(ALL, |channel| {
            channel.sender.tick(Setting {
                format: channel.control.format(),
                break_on: is_set(channel.control.acr, 1),
                cts: channel.modem.cts.level,
            });
        });
    }

    // The count of cycles, and which parts tick.
    fn clock(&mut self, marks: Marks) -> Marks
        ensures { (result, self.new) ≡ clocked marks self.old }
    {
        let Some(divisor) = self.control.divisor() else {
            return marks;
        };
        let full = u32::from(self.count) + 1 >= u32::from(divisor);
        self.count = if full { 0 } else { self.count + 1 };
        Marks {
            rxc: full,
            txc: full,
        }
    }

    // A read: ISR, CSR, nothing or RDR.
    pub fn read(&mut self, register: Register) -> Result<Reading, Refusal>
        ensures answers { result ≡ read_answer register self.old }
        ensures leaves { self.new ≡ after_read register self.old }
    {
        let byte = match register {
            Register::Interrupt => self.read_isr(),
            Register::Control => self.read_csr(),
            Register::Auxiliary => return Err(Refusal::NothingToRead),
            Register::Data => return Ok(self.read_rdr()),
        };
        Ok(Reading { byte, note: None })
    }

    // A write: IER, CR or FR, CDR or ACR, TDR; only the last has a note.
    pub fn write(&mut self, register: Register, byte: u8) -> Option<WriteNote>
        ensures answers { result ≡ write_answer register self.old }
        ensures leaves { self.new ≡ after_write register byte self.old }
    {
        match register {
            Register::Interrupt => self.interrupts.write_ier(byte),
            Register::Control => self.write_control(byte),
            Register::Auxiliary => self.write_auxiliary(byte),
            Register::Data => return Some(self.write_tdr(byte)),
        }
        None
    }

    // One cycle, with the level of RxD and the marks of RxC and TxC.
    pub fn cycle(&mut self, rxd: bool, marks: Marks) -> ChannelAnswer
        ensures { (result, self.new) ≡ cycled rxd marks self.old }
    {
        let ticks = self.clock(marks);
        let report = if ticks.rxc { self.hear(rxd) } else { None };
        if ticks.txc {
            self.send();
        }
        ChannelAnswer {
            txd: self.txd(),
            irq: self.irq(),
            report,
        }
    }
}
