// Reads a whole script before anything of it could run.
ghost use Rattle.std.specs.Prelude.{◌≡◌, ◌≤◌, length, OnOk};
ghost use Rattle.script.specs.Answer.{Gives, Wanting, headed};
ghost use Rattle.script_words.specs.Format.{begins, read, script_says};
ghost use Rattle.script.specs.Laws.{RoundTrip, WrittenBack, Faults, Leads, Memory};
ghost use Rattle.script_words.specs.Word.{first_line_at};

use script_lines::token::Token;
use script_words::command::Placed;
use script_words::fault::{Fault, ScriptError};
use script_words::position::Position;
use script_words::refusal::ScriptRefusal;
use script_words::word::Word;
use std::alloc::Global;

const MOST_BYTES: usize = 16384;

const FIRST_LINE: [u8; 8] = *b"DUS 0001";

// The commands of a script with their places, or why and where it is no script.
pub fn read_script(heap: Global, script: &[u8]) -> Result<Vec<Placed>, ScriptError>
    ensures answers { Gives result (script_says script.now) }
    ensures round_trip { RoundTrip script.now result }
    ensures written_back { WrittenBack script.now result }
    ensures faults { Faults script.now result }
    ensures memory { Memory script.now result }
{
    if script.len() > MOST_BYTES {
        return Err(ScriptError::Fault(Fault {
            refusal: ScriptRefusal::ScriptTooLong,
            position: Position { line: 0, column: 0 },
        }));
    }
    let word = Word {
        bytes: script,
        line: 1,
        column: 1,
    };
    first_line(word)?;
    let (_, lines) = script.split_at(FIRST_LINE.len() + 1);
    read_lines(heap, lines)
}

// Reads the first line.
fn first_line(word: Word<'_>) -> Result<(), Fault>
    ensures value { headed result ≡ first_line_at word.entry }
    ensures within { OnOk result (9 ≤ length word.entry.bytes.now) }
{
    for (at, byte) in (0..).zip(FIRST_LINE) {
        word.only(at, byte)?;
    }
    word.only(8, b'\n')
}

// Reads the lines from line 2 on.
fn read_lines(heap: Global, text: &[u8]) -> Result<Vec<Placed>, ScriptError>
    requires { length text.now ≤ 16384 }
    ensures answers { Gives result (read begins 2 1 text.now) }
    ensures memory { Wanting result (Leads text.now) }
{
    // The rest and its line by hand, as only a token says where the next line begins.
    let mut commands = Vec::new(heap);
    let mut rest = text;
    let mut line = 2;
    while !rest.is_empty() {
        let token = Token::first(rest, line)?;
        let command = token.command()?;
        let word = token.word();
        commands.push(Placed {
            command,
            position: word.position(0),
        })?;
        (_, rest) = rest.split_at(word.bytes.len());
        line += 1;
    }
    Ok(commands)
}
