// Scripts, read line by line against the pattern of the line, from `docs/SCRIPT.md` alone.

use crate::inputs::Input;
use crate::side::Side;
use std::alloc::{AllocError, Global};
use thiserror::Error;

// The most bytes of a script.
const MOST: usize = 16_384;

// What a line of a script says.
#[derive(Clone, Copy, PartialEq, Eq, Debug)]
pub enum Order {
    Read(u8),
    Write(u8, u8),
    Cycles(u16),
    Level(Side, Input, bool),
    SetUp(u8, u8),
}

// A place in a text. The first line and the first column are 1; a text that is too long is wrong at line 0, column 0.
#[derive(Clone, Copy, PartialEq, Eq, Debug)]
pub struct ScriptPlace {
    pub line: usize,
    pub column: usize,
}

// An order, and where its letter stands.
#[derive(Clone, Copy, PartialEq, Eq, Debug)]
pub struct ScriptLine {
    pub place: ScriptPlace,
    pub order: Order,
}

// What is wrong with a text, by the numbers of the faults.
#[derive(Clone, Copy, PartialEq, Eq, Debug, Error)]
pub enum Fault {
    #[error("another first line")]
    BadFirstLine = 8,
    #[error("no line of a script")]
    BadScript = 9,
    #[error("more than {MOST} bytes")]
    TooLong = 10,
}

// Why a text is no script, and where.
#[derive(Clone, Copy, PartialEq, Eq, Debug, Error)]
#[error("line {}, column {}: {fault}", .place.line, .place.column)]
pub struct Misfit {
    pub fault: Fault,
    pub place: ScriptPlace,
}

// Why a text is not read to its end.
#[derive(Debug, Drop, Error)]
pub enum ScriptError {
    #[error(transparent)]
    Misfit(#[from] Misfit),
    #[error(transparent)]
    OutOfMemory(#[from(alloc)] AllocError),
}

// Whether a byte fits a mark of a pattern. A small letter stands for the bytes that it names here, any other mark for
// itself. Marks are letters and no enum, so that a pattern looks like its line in `docs/SCRIPT.md`.
fn fits(mark: u8, byte: u8) -> bool {
    match mark {
        b'r' => matches!(byte, b'0'..=b'7'),
        b'b' => matches!(byte, b'0'..=b'9' | b'A'..=b'F'),
        b'p' => matches!(byte, b'1'..=b'9' | b'A'..=b'F'),
        b'c' => matches!(byte, b'1' | b'2'),
        b'm' => matches!(byte, b'C' | b'D' | b'S'),
        b'v' => matches!(byte, b'0' | b'1'),
        _ => byte == mark,
    }
}

// The bytes of a line that fits a pattern, or else the column of the first byte, or of the end, that does not.
fn fitting<const N: usize>(pattern: &[u8; N], line: &[u8]) -> Result<[u8; N], usize> {
    let misfit = line
        .iter()
        .zip(pattern)
        .position(|(byte, mark)| !fits(*mark, *byte));
    match misfit {
        Some(place) => Err(place + 1),
        None => <[u8; N]>::try_from(line).map_err(|_| line.len() + 1),
    }
}

// The value of a digit, which is a byte: `to_digit` answers a wider number below 16.
fn digit(byte: u8) -> u8 {
    char::from(byte).to_digit(16).unwrap_or(0) as u8
}

// The value of two digits.
fn byte_of(high: u8, low: u8) -> u8 {
    digit(high) << 4 | digit(low)
}

// The order of a line, or the column that does not fit.
fn order_of(line: &[u8]) -> Result<Order, usize> {
    match line.first() {
        Some(b'R') => {
            let [_, _, select, _] = fitting(b"R r\n", line)?;
            Ok(Order::Read(digit(select)))
        }
        Some(b'W') => {
            let [_, _, select, _, high, low, _] = fitting(b"W r bb\n", line)?;
            Ok(Order::Write(digit(select), byte_of(high, low)))
        }
        Some(b'C') => {
            // the number is not 0
            let pattern = if line.starts_with(b"C 000") {
                b"C 000p\n"
            } else {
                b"C bbbb\n"
            };
            let [_, _, a, b, c, d, _] = fitting(pattern, line)?;
            Ok(Order::Cycles(u16::from_be_bytes([byte_of(a, b), byte_of(c, d)])))
        }
        Some(b'L') => {
            let [_, _, channel, _, input, _, level, _] = fitting(b"L c m v\n", line)?;
            let side = if channel == b'1' {
                Side::One
            } else {
                Side::Two
            };
            let input = match input {
                b'C' => Input::Cts,
                b'D' => Input::Dcd,
                _ => Input::Dsr,
            };
            Ok(Order::Level(side, input, level == b'1'))
        }
        Some(b'S') => {
            let [_, _, a, b, _, c, d, _] = fitting(b"S bb bb\n", line)?;
            Ok(Order::SetUp(byte_of(a, b), byte_of(c, d)))
        }
        _ => Err(1),
    }
}

// Reads a text.
pub fn read_text(alloc: Global, text: &[u8]) -> Result<Vec<ScriptLine>, ScriptError> {
    if text.len() > MOST {
        return Err(Misfit {
            fault: Fault::TooLong,
            place: ScriptPlace { line: 0, column: 0 },
        }
        .into());
    }
    let mut lines = text.split_inclusive(|byte| *byte == b'\n');
    fitting(b"DUS 0001\n", lines.next().unwrap_or(&[])).map_err(|column| Misfit {
        fault: Fault::BadFirstLine,
        place: ScriptPlace { line: 1, column },
    })?;
    let mut script = Vec::new(alloc);
    for (line, bytes) in (2..).zip(lines) {
        let order = order_of(bytes).map_err(|column| Misfit {
            fault: Fault::BadScript,
            place: ScriptPlace { line, column },
        })?;
        let place = ScriptPlace { line, column: 1 };
        script.push(ScriptLine { place, order })?;
    }
    Ok(script)
}
