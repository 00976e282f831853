// The steps that are played: a short message there, a reply back, and what can come between.
use crate::bench::Step;
use crate::names::Name;
use terms::channel_id::ChannelId;
use terms::modem_line::ModemLine;

const ONE: ChannelId = ChannelId::One;

const TWO: ChannelId = ChannelId::Two;

const HIGH: bool = true;

const LOW: bool = false;

// A newly reset chip shows $C1 in ISR1, which is at select 0. The other calls are refused.
const BEFORE_SET_UP: [Step; 8] = [
    Step::ReadAt(0),
    Step::ReadAt(8),
    Step::ReadAt(2),
    Step::SetUp(0x8e, 0xe3),
    Step::SetUp(0x0e, 0x63),
    Step::Sweep(0, 4096),
    Step::Sweep(2049, 4096),
    Step::Sweep(2048, 4095),
];

const SET_UP: [Step; 4] = [
    Step::SetUp(0x0e, 0xe3),
    Step::Read(ONE, Name::Isr),
    Step::Write(
        ONE,
        Name::Ier,
        0xe0,
        "channel 1 asks when TDR is free and when CTS changes",
    ),
    Step::Write(
        TWO,
        Name::Ier,
        0xdb,
        "channel 2 asks when TDR is free, for words and errors, DCD and DSR",
    ),
];

// The first word. While it is in line A the board cannot be set up.
const FIRST_WORD: [Step; 11] = [
    Step::Write(ONE, Name::Tdr, b'x', "a word that is not sent"),
    Step::Write(
        ONE,
        Name::Tdr,
        b'1',
        "it takes the place of the word before",
    ),
    Step::RunToIrq(ONE),
    Step::Read(ONE, Name::Isr),
    Step::Write(
        ONE,
        Name::Tdr,
        b'F',
        "it waits while the first word is sent",
    ),
    Step::Modem(ONE, ModemLine::Cts, HIGH),
    Step::Read(ONE, Name::Isr),
    Step::Run(
        60,
        "line A holds the beginning of the first word's start bit",
    ),
    Step::SetUp(0x0e, 0xe3),
    Step::RunToReport(TWO),
    Step::Read(TWO, Name::Rdr),
];

// The second word, which a high CTS holds back.
const HELD_WORD: [Step; 7] = [
    Step::Run(1500, "CTS1 is high, and TDR1 keeps its word"),
    Step::Read(ONE, Name::Csr),
    Step::Modem(ONE, ModemLine::Cts, LOW),
    Step::Read(ONE, Name::Isr),
    Step::RunToReport(TWO),
    Step::Read(ONE, Name::Isr),
    Step::Read(TWO, Name::Rdr),
];

// DCD and DSR of channel 2 go there and back.
const MODEM_CHANGES: [Step; 7] = [
    Step::Modem(TWO, ModemLine::Dcd, HIGH),
    Step::Modem(TWO, ModemLine::Dsr, HIGH),
    Step::Read(TWO, Name::Csr),
    Step::Read(TWO, Name::Isr),
    Step::Modem(TWO, ModemLine::Dcd, LOW),
    Step::Modem(TWO, ModemLine::Dsr, LOW),
    Step::Read(TWO, Name::Isr),
];

// The third word is not read in time, so that the one behind it is lost.
const LOST_WORD: [Step; 8] = [
    Step::Write(ONE, Name::Tdr, b'0', "the third word"),
    Step::RunToReport(TWO),
    Step::Write(
        ONE,
        Name::Tdr,
        b'A',
        "the fourth word, while RDR2 still has the third",
    ),
    Step::RunToReport(TWO),
    Step::Read(TWO, Name::Isr),
    Step::Read(TWO, Name::Rdr),
    Step::Read(TWO, Name::Rdr),
    Step::Read(TWO, Name::Isr),
];

// The lost word again, and the reply, in one sweep. Nobody reads in a sweep, so that the reply's second word is lost.
const SWEEP: [Step; 9] = [
    Step::Write(ONE, Name::Tdr, b'A', "the fourth word again"),
    Step::Write(TWO, Name::Tdr, b'O', "the reply"),
    Step::RunToIrq(TWO),
    Step::Read(ONE, Name::Isr),
    Step::Read(TWO, Name::Isr),
    Step::Write(
        TWO,
        Name::Tdr,
        b'K',
        "it waits while the word before is sent",
    ),
    Step::Sweep(2048, 4096),
    Step::Read(TWO, Name::Rdr),
    Step::Read(ONE, Name::Rdr),
];

// The reply's second word again. With all words out of the lines the board can be set up anew.
const LAST_WORD: [Step; 4] = [
    Step::Write(TWO, Name::Tdr, b'K', "the reply's second word again"),
    Step::RunToReport(ONE),
    Step::Read(ONE, Name::Rdr),
    Step::SetUp(0x0e, 0xe3),
];

pub(crate) const STORY: [&[Step]; 8] = [
    &BEFORE_SET_UP,
    &SET_UP,
    &FIRST_WORD,
    &HELD_WORD,
    &MODEM_CHANGES,
    &LOST_WORD,
    &SWEEP,
    &LAST_WORD,
];
