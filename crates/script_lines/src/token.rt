// A token: a command by its letter, with its word, the bytes from the letter to the end of its line.
// Where the script ends within the line, the word ends there too.
ghost use Rattle.std.specs.Prelude.{◌≡◌, ◌<◌};
ghost use Rattle.script_words.specs.Format.{after, R, W, C, L, S};
ghost use Rattle.script_lines.specs.Token.{word_of, piece, first_piece, said, token_says};
ghost use Rattle.script_words.specs.Word.{hex_byte_at, line_at};

use script_words::command::Command;
use script_words::fault::Fault;
use script_words::word::Word;

// A case for each command, which borrows its bytes: the project asks for this form, and not for a letter with a word.
#[derive(Clone, Copy)]
pub enum Token<'a> {
    Read(Word<'a>),
    Write(Word<'a>),
    Cycles(Word<'a>),
    Modem(Word<'a>),
    SetUp(Word<'a>),
}

impl<'a> Token<'a> {
    // The token that a text begins with.
    pub fn first(text: &'a [u8], line: u32) -> Result<Token<'a>, Fault>
        ensures { piece result ≡ first_piece text.now line }
    {
        let word = Word {
            bytes: text,
            line,
            column: 1,
        };
        match char::from(word.byte_at(0)?) {
            'R' => Ok(Token::Read(word.front(4))),
            'W' => Ok(Token::Write(word.front(7))),
            'C' => Ok(Token::Cycles(word.front(7))),
            'L' => Ok(Token::Modem(word.front(8))),
            'S' => Ok(Token::SetUp(word.front(8))),
            _ => Err(word.fault(0)),
        }
    }

    // The bytes of the script that it stands for, with their place.
    pub fn word(self) -> Word<'a>
        ensures bytes { result.bytes.now ≡ (word_of self.entry).bytes.now }
        ensures line { result.line ≡ (word_of self.entry).line }
        ensures column { result.column ≡ (word_of self.entry).column }
    {
        match self {
            Token::Read(word)
            | Token::Write(word)
            | Token::Cycles(word)
            | Token::Modem(word)
            | Token::SetUp(word) => word,
        }
    }

    // The command that it stands for.
    pub fn command(self) -> Result<Command, Fault>
        ensures { said result ≡ token_says self.entry }
    {
        match self {
            Token::Read(word) => read_command(word),
            Token::Write(word) => write_command(word),
            Token::Cycles(word) => cycles_command(word),
            Token::Modem(word) => modem_command(word),
            Token::SetUp(word) => set_up_command(word),
        }
    }
}

// Two digits from the byte `at` on.
fn hex_byte(word: Word<'_>, at: u8) -> Result<u8, Fault>
    requires { at < 255 }
    ensures { result ≡ hex_byte_at word.entry at }
{
    Ok(16 * word.digit(at, 0, 15)? + word.digit(at + 1, 0, 15)?)
}

// R r
fn read_command(word: Word<'_>) -> Result<Command, Fault>
    ensures { said result ≡ line_at (after R) word.entry 1 }
{
    word.only(1, b' ')?;
    let select = word.select(2)?;
    word.only(3, b'\n')?;
    Ok(Command::Read { select })
}

// W r bb
fn write_command(word: Word<'_>) -> Result<Command, Fault>
    ensures { said result ≡ line_at (after W) word.entry 1 }
{
    word.only(1, b' ')?;
    let select = word.select(2)?;
    word.only(3, b' ')?;
    let byte = hex_byte(word, 4)?;
    word.only(6, b'\n')?;
    Ok(Command::Write { select, byte })
}

// C nnnn: the last digit is not the fourth 0.
fn cycles_command(word: Word<'_>) -> Result<Command, Fault>
    ensures { said result ≡ line_at (after C) word.entry 1 }
{
    word.only(1, b' ')?;
    let front = 16 * u16::from(hex_byte(word, 2)?) + u16::from(word.digit(4, 0, 15)?);
    let last = word.digit(5, u8::from(front == 0), 15)?;
    word.only(6, b'\n')?;
    Ok(Command::Cycles {
        count: 16 * front + u16::from(last),
    })
}

// L c m v
fn modem_command(word: Word<'_>) -> Result<Command, Fault>
    ensures { said result ≡ line_at (after L) word.entry 1 }
{
    word.only(1, b' ')?;
    let channel = word.channel(2)?;
    word.only(3, b' ')?;
    let line = word.modem_line(4)?;
    word.only(5, b' ')?;
    let level = word.level(6)?;
    word.only(7, b'\n')?;
    Ok(Command::Modem {
        channel,
        line,
        level,
    })
}

// S bb bb
fn set_up_command(word: Word<'_>) -> Result<Command, Fault>
    ensures { said result ≡ line_at (after S) word.entry 1 }
{
    word.only(1, b' ')?;
    let cr = hex_byte(word, 2)?;
    word.only(4, b' ')?;
    let fr = hex_byte(word, 5)?;
    word.only(7, b'\n')?;
    Ok(Command::SetUp { cr, fr })
}
