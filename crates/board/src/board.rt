// The board: a reset chip and two lines.
ghost use Rattle.std.specs.Prelude.{◌≡◌, ◌+◌, ◌*◌, ◌<◌, ◌≤◌, Bool, true, length, is_ok, Ok, Err};
ghost use Rattle.terms.specs.Refusal.{refused_by};
ghost use Rattle.channel.specs.Channel.{irq_of};
ghost use Rattle.dacia.specs.Chip.{channel_of, newly_reset, read_ended, after_read_ended, write_ended, after_write_ended, read_once, after_read_once, write_once, after_write_once, modem_on};
ghost use Rattle.board.specs.Board.{state, with_chip, cycle_answer, after_cycle, bad_control, lines_quiet, set_up_answer, set_up_by, set_up_chip, after_set_up};
ghost use Rattle.board.specs.Delivery.{Delivers};
ghost use Rattle.board.specs.Sweep.{cycles, sweep_by, Wrote, Swept, after_sweep, next_place, both_placed};

use crate::record::{Record, put};
use channel::channel::Marks;
use dacia::access::{ReadAccess, WriteAccess};
use dacia::chip::{Chip, ChipAnswer, Inputs, PoweredChip};
use line::line::Line;
use terms::channel_id::ChannelId;
use terms::channels::Channels;
use terms::modem_line::ModemLine;
use terms::note::{Reading, WriteNote};
use terms::refusal::Refusal;

// It has no model, since that would ask for `A: Line, B: Line` wherever the type is named: the contracts say what it stands for by `state`.
#[derive(Drop)]
pub struct Board<A, B> {
    chip: Chip,
    a: A,
    b: B,
}

const MOST_CYCLES: u16 = 2048;

// A CR value with bit 7 set or rate code 15.
fn bad_control(cr: u8) -> bool
    ensures { result ≡ bad_control cr }
{
    cr / 128 % 2 == 1 || cr % 16 == 15
}

fn sweep_allowed(k: u16, room: usize) -> Result<(), Refusal>
    ensures { refused_by result ≡ sweep_by k room }
{
    if !(1..=MOST_CYCLES).contains(&k) {
        return Err(Refusal::BadSweepLength);
    }
    if room < 2 * usize::from(k) {
        return Err(Refusal::TooFewRecords);
    }
    Ok(())
}

// A chip that is reset and set up: both values written to both channels, both RDRs read. The accesses are written out, since loops over
// the selects 1 and 5 and over 3 and 7 would be as long; and the values are two bytes and no struct, since each is written alone.
fn set_up_chip(cr: u8, fr: u8) -> Result<Chip, Refusal>
    ensures { result ≡ Ok (set_up_chip cr fr) }
{
    let mut chip = PoweredChip::power_on().reset();
    chip.write(1, cr)?;
    chip.write(1, fr)?;
    chip.write(5, cr)?;
    chip.write(5, fr)?;
    chip.read(3)?;
    chip.read(7)?;
    Ok(chip)
}

impl<A: Line, B: Line> Board<A, B> {
    // A board with a newly reset chip.
    pub fn new(a: A, b: B) -> Board<A, B>
        ensures { state A.Line.levels B.Line.levels result ≡ record { chip = newly_reset; a = A.Line.levels a; b = B.Line.levels b } }
    {
        Board {
            chip: PoweredChip::power_on().reset(),
            a,
            b,
        }
    }

    // One cycle: the lines take TxD and answer RxD, then the chip takes a cycle without RxC and TxC.
    pub fn cycle(&mut self) -> ChipAnswer
        ensures answers { result ≡ cycle_answer (state A.Line.levels B.Line.levels self.old) }
        ensures leaves { state A.Line.levels B.Line.levels self.new ≡ after_cycle (state A.Line.levels B.Line.levels self.old) }
    {
        let txd1 = self.chip.txd(ChannelId::One);
        let txd2 = self.chip.txd(ChannelId::Two);
        let rxd2 = self.a.pass(txd1);
        let rxd1 = self.b.pass(txd2);
        self.chip.cycle(Inputs {
            rxd: Channels {
                one: rxd1,
                two: rxd2,
            },
            marks: Marks {
                rxc: false,
                txc: false,
            },
        })
    }

    // Sets the board up: a reset chip with both values, CR and FR, written to both channels, and both RDRs read.
    // From here on no list of reads, IER and TDR writes, modem levels, cycles and sweeps loses, alters or reorders a word.
    pub fn set_up(&mut self, cr: u8, fr: u8) -> Result<(), Refusal>
        ensures answers { result ≡ set_up_answer cr fr (state A.Line.levels B.Line.levels self.old) }
        ensures refusals { refused_by result ≡ set_up_by cr fr (state A.Line.levels B.Line.levels self.old) }
        ensures leaves { state A.Line.levels B.Line.levels self.new ≡ after_set_up result cr fr (state A.Line.levels B.Line.levels self.old) }
        ensures delivery { is_ok result ≡ true → Delivers cr fr (state A.Line.levels B.Line.levels self.new) }
    {
        if bad_control(cr) {
            return Err(Refusal::BadControl);
        }
        if fr / 128 % 2 != 1 {
            return Err(Refusal::BadFormat);
        }
        if !self.lines_quiet() {
            return Err(Refusal::LineNotQuiet);
        }
        self.chip = set_up_chip(cr, fr)?;
        Ok(())
    }

    fn lines_quiet(&self) -> bool
        ensures { result ≡ lines_quiet (state A.Line.levels B.Line.levels self.now) }
    {
        self.a.is_quiet() && self.b.is_quiet()
    }

    // `k` cycles, whose reports but none are written into the first of the records; answers how many it wrote.
    pub fn sweep(&mut self, k: u16, records: &mut [Record]) -> Result<usize, Refusal>
        ensures refusals { refused_by result ≡ sweep_by k (length records.old) }
        ensures writes { Swept k (state A.Line.levels B.Line.levels self.old) records.old result records.new }
        ensures leaves { state A.Line.levels B.Line.levels self.new ≡ after_sweep result k (state A.Line.levels B.Line.levels self.old) }
    {
        sweep_allowed(k, records.len())?;
        Ok(self.run_cycles(k, records))
    }

    // The cycles of a sweep.
    fn run_cycles(&mut self, k: u16, records: &mut [Record]) -> usize
        requires { 2 * k ≤ length records.old }
        ensures writes { Wrote k (state A.Line.levels B.Line.levels self.old) records.old result records.new }
        ensures leaves { state A.Line.levels B.Line.levels self.new ≡ cycles k (state A.Line.levels B.Line.levels self.old) }
    {
        let mut written = 0;
        for cycle in 1..=k {
            written = self.record_cycle(cycle, written, records);
        }
        written
    }

    // One cycle of a sweep, whose records are put at a place; answers the next place.
    fn record_cycle(&mut self, cycle: u16, at: usize, records: &mut [Record]) -> usize
        requires { at + 1 < length records.old }
        ensures counts { result ≡ next_place at cycle (cycle_answer (state A.Line.levels B.Line.levels self.old)) }
        ensures writes { records.new ≡ both_placed records.old at cycle (cycle_answer (state A.Line.levels B.Line.levels self.old)) }
        ensures leaves { state A.Line.levels B.Line.levels self.new ≡ after_cycle (state A.Line.levels B.Line.levels self.old) }
    {
        let answer = self.cycle();
        let next = put(records, at, cycle, ChannelId::One, answer.one.report);
        put(records, next, cycle, ChannelId::Two, answer.two.report)
    }

    // From here on each call is the chip's own. They are no trait that chip and board have: each of their callers would have to import it.

    // Ends a read on the board's chip.
    pub fn end_read(&mut self, access: ReadAccess) -> Result<Reading, Refusal>
        ensures answers { result ≡ read_ended access self.old.chip }
        ensures leaves { state A.Line.levels B.Line.levels self.new ≡ with_chip (after_read_ended access self.old.chip) (state A.Line.levels B.Line.levels self.old) }
    {
        self.chip.end_read(access)
    }

    // Ends a write on the board's chip.
    pub fn end_write(&mut self, access: WriteAccess, byte: u8) -> Option<WriteNote>
        ensures answers { result ≡ write_ended access self.old.chip }
        ensures leaves { state A.Line.levels B.Line.levels self.new ≡ with_chip (after_write_ended access byte self.old.chip) (state A.Line.levels B.Line.levels self.old) }
    {
        self.chip.end_write(access, byte)
    }

    // A read that is opened and ended with nothing between.
    pub fn read(&mut self, select: u8) -> Result<Reading, Refusal>
        ensures answers { result ≡ read_once select self.old.chip }
        ensures leaves { state A.Line.levels B.Line.levels self.new ≡ with_chip (after_read_once select self.old.chip) (state A.Line.levels B.Line.levels self.old) }
    {
        self.chip.read(select)
    }

    // A write that is opened and ended with nothing between.
    pub fn write(&mut self, select: u8, byte: u8) -> Result<Option<WriteNote>, Refusal>
        ensures answers { result ≡ write_once select self.old.chip }
        ensures leaves { state A.Line.levels B.Line.levels self.new ≡ with_chip (after_write_once select byte self.old.chip) (state A.Line.levels B.Line.levels self.old) }
    {
        self.chip.write(select, byte)
    }

    // A level on a modem input of the board's chip.
    pub fn set_modem(&mut self, channel: ChannelId, line: ModemLine, level: bool)
        ensures { state A.Line.levels B.Line.levels self.new ≡ with_chip (modem_on channel line level self.old.chip) (state A.Line.levels B.Line.levels self.old) }
    {
        self.chip.set_modem(channel, line, level)
    }

    // The level of an IRQ pin.
    pub fn irq(&self, channel: ChannelId) -> bool
        ensures { result ≡ irq_of (channel_of channel self.now.chip) }
    {
        self.chip.irq(channel)
    }
}
