// What is counted, and by which names.

use crate::state::State;
use terms::channel_id::ChannelId;
use terms::note::{ReadNote, WriteNote};
use terms::refusal::Refusal;
use terms::report::ReportKind;

// An event that is counted beside the changes of the channels.
#[derive(Clone, Copy, PartialEq, Eq, Debug)]
pub(crate) enum Event {
    Report(ChannelId, ReportKind),
    Refusal(Refusal),
    Read(ReadNote),
    Written(WriteNote),
    BreakAsleep,
    BreakWhileFull,
    PassedWithLowStop,
    PassedAndWakes,
    KeptWithLowStop,
    KeptClearsParity,
    KeptClearsFault,
    WrongParityBit,
    ShownParityBit,
    ShownParityZero,
    FalseStart,
    CtsFall,
    SettingWhileSending,
    SettingWhileGathering,
    AuxiliaryWhileGathering,
    ResetWhileSending,
    ResetWhileBreaking,
    ResetWhileGathering,
    HeldAccess,
    SetUp,
    SetUpWhileSending,
    Sweep,
    TwoRecordsOfCycle,
}

// The facts of a channel whose changes are counted, with the names of their beginnings and their ends. They are printed
// first, in this order.
pub(crate) const CHANGES: [(State, &str, &str); 26] = [
    (
        State::REQUEST_RDRF,
        "request RDRF raised",
        "request RDRF dropped",
    ),
    (
        State::REQUEST_FOB,
        "request F/O/B raised",
        "request F/O/B dropped",
    ),
    (
        State::REQUEST_PAR,
        "request PAR raised",
        "request PAR dropped",
    ),
    (
        State::REQUEST_DSRT,
        "request DSRT raised",
        "request DSRT dropped",
    ),
    (
        State::REQUEST_DCDT,
        "request DCDT raised",
        "request DCDT dropped",
    ),
    (
        State::REQUEST_CTST,
        "request CTST raised",
        "request CTST dropped",
    ),
    (
        State::REQUEST_TDRE,
        "request TDRE raised",
        "request TDRE dropped",
    ),
    (State::RDRF, "RDRF set", "RDRF cleared"),
    (State::FOB, "F/O/B set", "F/O/B cleared"),
    (State::PAR, "PAR set", "PAR cleared"),
    (State::DSRT, "DSRT set", "DSRT cleared"),
    (State::DCDT, "DCDT set", "DCDT cleared"),
    (State::CTST, "CTST set", "CTST cleared"),
    (State::TDRE, "TDRE set", "TDRE cleared"),
    (State::FE, "FE set", "FE cleared"),
    (State::OVR, "OVR set", "OVR cleared"),
    (State::BRK, "BRK set", "BRK cleared"),
    (State::ASLEEP, "receiver falls asleep", "receiver wakes"),
    (State::TDR_FULL, "TDR filled", "TDR emptied"),
    (
        State::SENDS,
        "frame sent from rest or after a break",
        "transmitter stops sending",
    ),
    (State::BREAKS, "break sent", "transmitter stops a break"),
    (
        State::GATHERS,
        "receiver begins to gather",
        "receiver stops gathering",
    ),
    (
        State::WAITS,
        "receiver begins to wait",
        "receiver stops waiting",
    ),
    (
        State::OTHER_FORMAT,
        "CR or FR changed in a received frame",
        "frame of another format ends",
    ),
    (State::TUR, "TUR set", "TUR cleared"),
    (State::SHOWS_PARITY, "ACR bit 0 set", "ACR bit 0 cleared"),
];

// The events, with their names, in the order in which they are printed.
pub(crate) const EVENTS: [(Event, &str); 42] = [
    (
        Event::Report(ChannelId::One, ReportKind::Break),
        "break on channel 1",
    ),
    (
        Event::Report(ChannelId::One, ReportKind::Passed),
        "passed on channel 1",
    ),
    (
        Event::Report(ChannelId::One, ReportKind::Lost),
        "lost on channel 1",
    ),
    (
        Event::Report(ChannelId::One, ReportKind::Kept),
        "kept on channel 1",
    ),
    (
        Event::Report(ChannelId::Two, ReportKind::Break),
        "break on channel 2",
    ),
    (
        Event::Report(ChannelId::Two, ReportKind::Passed),
        "passed on channel 2",
    ),
    (
        Event::Report(ChannelId::Two, ReportKind::Lost),
        "lost on channel 2",
    ),
    (
        Event::Report(ChannelId::Two, ReportKind::Kept),
        "kept on channel 2",
    ),
    (Event::Refusal(Refusal::NoSuchSelect), "refusal 1"),
    (Event::Refusal(Refusal::NothingToRead), "refusal 2"),
    (Event::Refusal(Refusal::BadControl), "refusal 3"),
    (Event::Refusal(Refusal::BadFormat), "refusal 4"),
    (Event::Refusal(Refusal::LineNotQuiet), "refusal 5"),
    (Event::Refusal(Refusal::BadSweepLength), "refusal 6"),
    (Event::Refusal(Refusal::TooFewRecords), "refusal 7"),
    (Event::Read(ReadNote::Fresh), "note fresh"),
    (Event::Read(ReadNote::Old), "note old"),
    (Event::Written(WriteNote::Stored), "note stored"),
    (Event::Written(WriteNote::Replaced), "note replaced"),
    (Event::BreakAsleep, "break while asleep"),
    (Event::BreakWhileFull, "break while RDRF is set"),
    (Event::PassedWithLowStop, "passed with a low stop bit"),
    (Event::PassedAndWakes, "passed and wakes"),
    (Event::KeptWithLowStop, "kept with a low stop bit"),
    (Event::KeptClearsParity, "kept clears PAR"),
    (Event::KeptClearsFault, "kept clears F/O/B"),
    (Event::WrongParityBit, "PAR by a wrong parity bit"),
    (Event::ShownParityBit, "PAR by a shown parity bit"),
    (Event::ShownParityZero, "PAR 0 by a shown parity bit"),
    (Event::FalseStart, "false start bit"),
    (Event::CtsFall, "TDRE by a fall of CTS"),
    (Event::SettingWhileSending, "CR or FR written while sending"),
    (
        Event::SettingWhileGathering,
        "CR or FR written while gathering",
    ),
    (
        Event::AuxiliaryWhileGathering,
        "CDR or ACR written while gathering",
    ),
    (Event::ResetWhileSending, "reset while sending"),
    (Event::ResetWhileBreaking, "reset while breaking"),
    (Event::ResetWhileGathering, "reset while gathering"),
    (Event::HeldAccess, "access ended after other calls"),
    (Event::SetUp, "set-up accepted"),
    (Event::SetUpWhileSending, "set-up accepted while sending"),
    (Event::Sweep, "sweep accepted"),
    (Event::TwoRecordsOfCycle, "two records of one cycle"),
];
