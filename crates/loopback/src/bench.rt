// A board on the bench: it is done to as a step says, and each thing that happens is told in a line.
ghost use Rattle.std.specs.Prelude.{◌≡◌, true, Ok, IfOk};
ghost use Rattle.terms.specs.Refusal.{refused_by};
ghost use Rattle.dacia.specs.Access.{place_at, read_opened, opens_by};
ghost use Rattle.terms.specs.declared.channel_id.ChannelId.TheVariants.{One, Two};
ghost use Rattle.loopback.specs.Tally.{no_counts, report_to};

use crate::names::{Level, Name, Shown, Word};
use crate::tally::Tally;
use anyhow::anyhow;
use board::board::Board;
use board::record::Record;
use channel::channel::ChannelAnswer;
use dacia::access::{Place, ReadAccess};
use dacia::chip::ChipAnswer;
use line::joint::Joint;
use line::table_line::TableLine;
use line::wire::Wire;
use std::alloc::Global;
use std::io;
use terms::channel_id::ChannelId;
use terms::channels::Channels;
use terms::modem_line::ModemLine;
use terms::or_none::OrNone;
use terms::refusal::Refusal;
use terms::report::{Report, ReportKind};

// The most cycles to wait for something.
const PATIENCE: u32 = 10_000;

// Room for a sweep of 2,048 cycles.
const ROOM: usize = 4096;

// What the room has at first: a sweep writes into records that it is lent.
const BLANK: Record = Record {
    cycle: 0,
    channel: ChannelId::One,
    kind: ReportKind::Break,
    word: 0,
};

// What is done to the board, and why. The steps are an enum, since the story is a table of constants, which can hold no closures.
#[derive(Clone, Copy)]
pub(crate) enum Step {
    SetUp(u8, u8),
    Write(ChannelId, Name, u8, &'static str),
    Read(ChannelId, Name),
    // an access at a select, as it is opened and ended
    ReadAt(u8),
    Modem(ChannelId, ModemLine, bool),
    Run(u32, &'static str),
    RunToReport(ChannelId),
    RunToIrq(ChannelId),
    // so many cycles, with so many records
    Sweep(u16, usize),
}

#[derive(Drop)]
pub(crate) struct Bench {
    board: Board<Joint<TableLine, TableLine>, Wire>,
    records: Vec<Record>,
    log: Log,
}

// What was told so far: the cycle that is reached, and what was told of either channel.
#[derive(Drop)]
struct Log {
    cycle: u32,
    told: Channels<Told>,
}

// What was told of a channel: the level of its IRQ, and what became of the words that it sends.
#[derive(Drop)]
struct Told {
    irq: bool,
    sent: Tally,
}

impl Bench {
    pub(crate) fn new(rt: &HostRuntime) -> anyhow::Result<Bench> {
        let line_a = Joint::new(TableLine::new(), TableLine::new());
        println!(rt; "{:>5}  a board with a newly reset chip", 0)?;
        Ok(Bench {
            board: Board::new(line_a, Wire),
            records: vec![in rt.alloc(); BLANK; ROOM]?,
            log: Log {
                cycle: 0,
                told: Channels {
                    one: Told::new(rt.alloc()),
                    two: Told::new(rt.alloc()),
                },
            },
        })
    }

    pub(crate) fn play(&mut self, rt: &HostRuntime, steps: &[Step]) -> anyhow::Result<()> {
        for step in steps {
            self.take(rt, *step)?;
        }
        Ok(())
    }

    fn take(&mut self, rt: &HostRuntime, step: Step) -> anyhow::Result<()> {
        match step {
            Step::SetUp(cr, fr) => self.set_up(rt, cr, fr)?,
            Step::Write(channel, name, byte, why) => self.write(rt, channel, name, byte, why)?,
            Step::Read(channel, name) => self.read(rt, channel, name)?,
            Step::ReadAt(select) => self.read_at(rt, select)?,
            Step::Modem(channel, line, level) => self.modem(rt, channel, line, level)?,
            Step::Run(cycles, why) => self.run(rt, cycles, why)?,
            Step::RunToReport(channel) => self.run_until(
                rt,
                channel,
                |answer| answer.report.is_some(),
                "no frame ended in time",
            )?,
            Step::RunToIrq(channel) => {
                self.run_until(rt, channel, |answer| !answer.irq, "no request came in time")?
            }
            Step::Sweep(cycles, room) => self.sweep(rt, cycles, room)?,
        }
        self.tell_irqs(rt)?;
        Ok(())
    }

    fn set_up(&mut self, rt: &HostRuntime, cr: u8, fr: u8) -> io::Result<()> {
        let cycle = self.log.cycle;
        match self.board.set_up(cr, fr) {
            Ok(()) => println!(rt;
                "{cycle:>5}  set up with CR ${cr:02X} and FR ${fr:02X}: a reset chip has them in both channels, and both RDRs are read"
            ),
            Err(refusal) => println!(rt;
                "{cycle:>5}  set up with CR ${cr:02X} and FR ${fr:02X}: {refusal}"
            ),
        }
    }

    fn write(
        &mut self,
        rt: &HostRuntime,
        channel: ChannelId,
        name: Name,
        byte: u8,
        why: &str,
    ) -> anyhow::Result<()> {
        let note = self.board.write(name.select(channel), byte)?;
        self.log.told.at_mut(channel).sent.count_write(note);
        println!(rt;
            "{:>5}  write {name}{} {}, note {}: {why}",
            self.log.cycle,
            channel.number(),
            Word(byte),
            OrNone(note)
        )?;
        Ok(())
    }

    fn read(&mut self, rt: &HostRuntime, channel: ChannelId, name: Name) -> anyhow::Result<()> {
        let reading = self.board.read(name.select(channel))?;
        self.log
            .told
            .at_mut(channel.other())
            .sent
            .count_read(reading)?;
        let byte = reading.byte;
        println!(rt;
            "{:>5}  read {name}{}: {}, note {}",
            self.log.cycle,
            channel.number(),
            Shown { name, byte },
            OrNone(reading.note)
        )?;
        Ok(())
    }

    // A read in its two steps: it is opened, and works when it is ended.
    fn read_at(&mut self, rt: &HostRuntime, select: u8) -> io::Result<()> {
        let cycle = self.log.cycle;
        let (place, access) = match opened(select) {
            Ok(opened) => opened,
            Err(refusal) => {
                return println!(rt; "{cycle:>5}  open a read at select {select}: {refusal}");
            }
        };
        match self.board.end_read(access) {
            Ok(reading) => {
                let name = Name::read_at(place.register);
                let byte = reading.byte;
                println!(rt;
                    "{cycle:>5}  open and end a read at select {select}, {name}{}: {}, note {}",
                    place.channel.number(),
                    Shown { name, byte },
                    OrNone(reading.note)
                )
            }
            Err(refusal) => {
                println!(rt; "{cycle:>5}  open and end a read at select {select}: {refusal}")
            }
        }
    }

    fn modem(
        &mut self,
        rt: &HostRuntime,
        channel: ChannelId,
        line: ModemLine,
        level: bool,
    ) -> io::Result<()> {
        self.board.set_modem(channel, line, level);
        println!(rt;
            "{:>5}  {line}{} goes {}",
            self.log.cycle,
            channel.number(),
            Level(level)
        )
    }

    // A line for each IRQ that is not as it was told last.
    fn tell_irqs(&mut self, rt: &HostRuntime) -> io::Result<()> {
        for channel in ChannelId::BOTH {
            self.log.tell_irq(rt, channel, self.board.irq(channel))?;
        }
        Ok(())
    }

    fn cycle(&mut self, rt: &HostRuntime) -> io::Result<ChipAnswer> {
        let answer = self.board.cycle();
        self.log.cycle = self.log.cycle.saturating_add(1);
        for channel in ChannelId::BOTH {
            let report = answer.at(channel).report;
            self.log.tell_report(rt, channel, report)?;
        }
        self.tell_irqs(rt)?;
        Ok(answer)
    }

    // That many cycles, and why they are waited for.
    fn run(&mut self, rt: &HostRuntime, cycles: u32, why: &str) -> io::Result<()> {
        for _ in 0..cycles {
            self.cycle(rt)?;
        }
        println!(rt; "{:>5}  {cycles} cycles are over: {why}", self.log.cycle)
    }

    // Cycles until a channel answers what is waited for, or what was missing.
    fn run_until<F: Fn(ChannelAnswer) -> bool>(
        &mut self,
        rt: &HostRuntime,
        channel: ChannelId,
        due: F,
        missing: &str,
    ) -> anyhow::Result<()>
        requires { F.IsAlwaysCallable due }
    {
        for _ in 0..PATIENCE {
            let answer = self.cycle(rt)?;
            if due(*answer.at(channel)) {
                return Ok(());
            }
        }
        Err(anyhow!("{missing}"))
    }

    // A sweep: what it has written, and how far the board is then.
    fn sweep(&mut self, rt: &HostRuntime, cycles: u16, room: usize) -> anyhow::Result<()> {
        let begun = self.log.cycle;
        let Some(records) = self.records.as_mut_slice().get_mut(0..room) else {
            return Err(anyhow!("the bench has no room for that sweep"));
        };
        let written = match self.board.sweep(cycles, records) {
            Ok(written) => written,
            Err(refusal) => {
                println!(rt;
                    "{begun:>5}  a sweep of {cycles} cycles with {room} records: {refusal}"
                )?;
                return Ok(());
            }
        };
        println!(rt; "{begun:>5}  a sweep of {cycles} cycles begins")?;
        for record in self.records.iter().take(written) {
            self.log.tell_record(rt, *record)?;
        }
        self.log.cycle = begun.saturating_add(u32::from(cycles));
        println!(rt;
            "{:>5}  the sweep is over: {written} records were written",
            self.log.cycle
        )?;
        Ok(())
    }

    pub(crate) fn summary(&self, rt: &HostRuntime) -> io::Result<()> {
        println!(rt; "After {} cycles:", self.log.cycle)?;
        for from in ChannelId::BOTH {
            let told = self.log.told.at(from);
            told.sent.tell(rt, from)?;
        }
        Ok(())
    }
}

impl Told {
    // Of a channel of a new board, which asks for nothing.
    fn new(heap: Global) -> Told
        ensures irq { result.irq ≡ true }
        ensures counts { result.sent.counts ≡ no_counts }
    {
        Told {
            irq: true,
            sent: Tally::new(heap),
        }
    }
}

impl Log {
    fn tell_irq(&mut self, rt: &HostRuntime, channel: ChannelId, irq: bool) -> io::Result<()> {
        let told = self.told.at_mut(channel);
        if told.irq == irq {
            return Ok(());
        }
        told.irq = irq;
        let why = if irq {
            "no request is left"
        } else {
            "there is a request"
        };
        println!(rt;
            "{:>5}  IRQ{} goes {}: {why}",
            self.cycle,
            channel.number(),
            Level(irq)
        )
    }

    // A report of channel 2 is of a word from channel 1, and the other way round.
    fn count_report(&mut self, channel: ChannelId, kind: ReportKind)
        ensures one { self.new.told.one.sent.counts ≡ report_to Two channel kind self.old.told.one.sent.counts }
        ensures two { self.new.told.two.sent.counts ≡ report_to One channel kind self.old.told.two.sent.counts }
    {
        self.told.at_mut(channel.other()).sent.count_report(kind);
    }

    fn tell_report(
        &mut self,
        rt: &HostRuntime,
        channel: ChannelId,
        report: Option<Report>,
    ) -> io::Result<()> {
        let Some(Report { kind, word }) = report else {
            return Ok(());
        };
        self.count_report(channel, kind);
        println!(rt;
            "{:>5}  channel {} reports {kind} {}",
            self.cycle,
            channel.number(),
            Word(word)
        )
    }

    // A record of a sweep that began in the cycle that is reached.
    fn tell_record(&mut self, rt: &HostRuntime, record: Record) -> io::Result<()> {
        let Record {
            cycle,
            channel,
            kind,
            word,
        } = record;
        self.count_report(channel, kind);
        println!(rt;
            "{:>5}  cycle {cycle} of the sweep: channel {} reports {kind} {}",
            self.cycle.saturating_add(u32::from(cycle)),
            channel.number(),
            Word(word)
        )
    }
}

// A read that is opened at a select, and the place of it.
fn opened(select: u8) -> Result<(Place, ReadAccess), Refusal>
    ensures place { IfOk result (λ r. Ok r.0 ≡ place_at select) }
    ensures access { IfOk result (λ r. Ok r.1 ≡ read_opened select) }
    ensures refusals { refused_by result ≡ opens_by select }
{
    let place = Place::try_from(select)?;
    let access = ReadAccess::open(select)?;
    Ok((place, access))
}
