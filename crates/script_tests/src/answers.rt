// What a script gives, held to what is due.
use script::reader::read_script;
use script_words::command::{Command, Placed};
use script_words::fault::{Fault, ScriptError};
use script_words::position::Position;
use script_words::refusal::ScriptRefusal;
use std::alloc::Global;
use std::fmt::Display;
use std::process::Abort;
use std::test::Fail;

// The fault of a script that is too long.
pub(crate) const TOO_LONG: Fault = Fault {
    refusal: ScriptRefusal::ScriptTooLong,
    position: Position { line: 0, column: 0 },
};

// A fault of the first line.
pub(crate) fn bad_first_line(column: u32) -> Fault {
    Fault {
        refusal: ScriptRefusal::BadFirstLine,
        position: Position { line: 1, column },
    }
}

// A fault of a later line.
pub(crate) fn bad_script(line: u32, column: u32) -> Fault {
    Fault {
        refusal: ScriptRefusal::BadScript,
        position: Position { line, column },
    }
}

// The commands, each at the beginning of its line, from line 2 on.
pub(crate) fn says(
    rt: &(impl Abort + Alloc<A = Global>),
    script: &[u8],
    due: &[Command],
) -> Result<(), Fail> {
    let got = read_script(rt.alloc(), script)?;
    assert_eq!(rt; got.len(), due.len());
    for ((placed, command), line) in got.iter().zip(due).zip(2..) {
        let wanted = Placed {
            command: *command,
            position: Position { line, column: 1 },
        };
        assert_eq!(rt; *placed, wanted);
    }
    Ok(())
}

// So many commands; `case` tells the script from others.
pub(crate) fn counts(
    rt: &(impl Abort + Alloc<A = Global>),
    case: &impl Display,
    script: &[u8],
    due: usize,
) -> Result<(), Fail> {
    let got = read_script(rt.alloc(), script)?;
    assert_eq!(rt; got.len(), due, "{case}");
    Ok(())
}

// A fault; `case` tells the script from others.
pub(crate) fn faults(
    rt: &(impl Abort + Alloc<A = Global>),
    case: &impl Display,
    script: &[u8],
    due: Fault,
) {
    let got = read_script(rt.alloc(), script).err();
    assert_eq!(rt; got, Some(ScriptError::Fault(due)), "{case}");
}
