// A part of the script, with the place of its first byte.
ghost use Rattle.std.specs.Prelude.{◌≡◌, ◌<◌, ◌≤◌, length, take, IfOk, OnOk};
ghost use Rattle.script_words.specs.Format.{only, select_digit, channel_digit, line_letter, level_digit, digit_value, misfit_at};
ghost use Rattle.script_words.specs.Word.{position_at, any_at, spot_at, digit_at, StandsAt};

use crate::fault::Fault;
use crate::position::Position;
use crate::refusal::ScriptRefusal;
use terms::channel_id::ChannelId;
use terms::modem_line::ModemLine;

// Line and column apart, and no `Position`: the column is narrower, so that every byte behind it has a position.
#[derive(Clone, Copy)]
pub struct Word<'a> {
    pub bytes: &'a [u8],
    pub line: u32,
    pub column: u16,
}

impl<'a> Word<'a> {
    // Where the byte `at` stands.
    pub fn position(self, at: u8) -> Position
        ensures { result ≡ position_at self.entry at }
    {
        Position {
            line: self.line,
            column: u32::from(self.column) + u32::from(at),
        }
    }

    // A fault at the byte `at`; in line 1 it is one of the first line.
    pub fn fault(self, at: u8) -> Fault
        ensures { result ≡ misfit_at (position_at self.entry at) }
    {
        let refusal = if self.line == 1 {
            ScriptRefusal::BadFirstLine
        } else {
            ScriptRefusal::BadScript
        };
        Fault {
            refusal,
            position: self.position(at),
        }
    }

    // The byte `at`.
    pub fn byte_at(self, at: u8) -> Result<u8, Fault>
        ensures value { result ≡ any_at self.entry at }
        ensures within { OnOk result (at < length self.entry.bytes.now) }
    {
        self.bytes
            .get(usize::from(at))
            .copied()
            .ok_or(self.fault(at))
    }

    // The first bytes, or all where there are fewer.
    pub fn front(self, count: usize) -> Word<'a>
        ensures bytes { result.bytes.now ≡ take count self.entry.bytes.now }
        ensures line { result.line ≡ self.entry.line }
        ensures column { result.column ≡ self.entry.column }
    {
        Word {
            bytes: self.bytes.get(..count).unwrap_or(self.bytes),
            ..self
        }
    }

    // What the byte `at` stands for, if it stands for anything.
    fn stands_at<T, F: FnOnce(u8) -> Option<T>>(self, at: u8, meaning: F) -> Result<T, Fault>
        requires { F.IsAlwaysCallable meaning }
        ensures value { StandsAt (F.post meaning) self.entry at result }
        ensures within { OnOk result (at < length self.entry.bytes.now) }
    {
        meaning(self.byte_at(at)?).ok_or(self.fault(at))
    }

    // One byte alone fits.
    pub fn only(self, at: u8, byte: u8) -> Result<(), Fault>
        ensures value { result ≡ spot_at (only byte) self.entry at }
        ensures within { OnOk result (at < length self.entry.bytes.now) }
    {
        self.stands_at(at, |found| (found == byte).then_some(()))
    }

    // A digit of a value between two others; no range, since one that a loop has used up no longer contains its end.
    pub fn digit(self, at: u8, least: u8, most: u8) -> Result<u8, Fault>
        ensures value { result ≡ digit_at least most self.entry at }
        ensures bound { IfOk result (λ v. v ≤ most) }
    {
        self.stands_at(at, |byte| {
            digit_value(byte).filter(|value| (least..=most).contains(value))
        })
    }

    // The select of a register.
    pub fn select(self, at: u8) -> Result<u8, Fault>
        ensures value { result ≡ spot_at select_digit self.entry at }
        ensures bound { IfOk result (λ v. v ≤ 7) }
    {
        self.digit(at, 0, 7)
    }

    pub fn channel(self, at: u8) -> Result<ChannelId, Fault>
        ensures { result ≡ spot_at channel_digit self.entry at }
    {
        self.stands_at(at, |byte| match char::from(byte) {
            '1' => Some(ChannelId::One),
            '2' => Some(ChannelId::Two),
            _ => None,
        })
    }

    pub fn modem_line(self, at: u8) -> Result<ModemLine, Fault>
        ensures { result ≡ spot_at line_letter self.entry at }
    {
        self.stands_at(at, |byte| match char::from(byte) {
            'C' => Some(ModemLine::Cts),
            'D' => Some(ModemLine::Dcd),
            'S' => Some(ModemLine::Dsr),
            _ => None,
        })
    }

    pub fn level(self, at: u8) -> Result<bool, Fault>
        ensures { result ≡ spot_at level_digit self.entry at }
    {
        self.stands_at(at, |byte| match char::from(byte) {
            '0' => Some(false),
            '1' => Some(true),
            _ => None,
        })
    }
}

// The digits are 0 to 9 and A to F; `to_digit` of a char would take small letters too.
fn digit_value(byte: u8) -> Option<u8>
    ensures { result ≡ digit_value byte }
{
    match byte {
        b'0'..=b'9' => Some(byte - b'0'),
        b'A'..=b'F' => Some(byte - b'A' + 10),
        _ => None,
    }
}
