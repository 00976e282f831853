// Scripts with what they give.
use crate::answers::{bad_first_line, bad_script, faults, says};
use script_words::command::Command;
use script_words::refusal::ScriptRefusal;
use std::test::Fail;
use terms::channel_id::ChannelId;
use terms::modem_line::ModemLine;

#[test]
fn a_script_without_commands(rt: HostRuntime) -> Result<(), Fail> {
    says(&rt, b"DUS 0001\n", &[])
}

#[test]
fn each_command(rt: HostRuntime) -> Result<(), Fail> {
    let byte = 0x4f;
    for (text, command) in [
        ("DUS 0001\nR 0\n", Command::Read { select: 0 }),
        ("DUS 0001\nW 3 4F\n", Command::Write { select: 3, byte }),
        ("DUS 0001\nC 0001\n", Command::Cycles { count: 1 }),
        ("DUS 0001\nC FFFF\n", Command::Cycles { count: 0xffff }),
        ("DUS 0001\nC 1A2B\n", Command::Cycles { count: 0x1a2b }),
        ("DUS 0001\nS 0E E3\n", Command::SetUp { cr: 0x0e, fr: 0xe3 }),
    ] {
        says(&rt, text.as_bytes(), &[command])?;
    }
    Ok(())
}

#[test]
fn each_modem_line(rt: HostRuntime) -> Result<(), Fail> {
    says(
        &rt,
        b"DUS 0001\nL 1 C 0\nL 2 D 1\nL 1 S 1\n",
        &[
            Command::Modem {
                channel: ChannelId::One,
                line: ModemLine::Cts,
                level: false,
            },
            Command::Modem {
                channel: ChannelId::Two,
                line: ModemLine::Dcd,
                level: true,
            },
            Command::Modem {
                channel: ChannelId::One,
                line: ModemLine::Dsr,
                level: true,
            },
        ],
    )
}

#[test]
fn commands_in_their_order(rt: HostRuntime) -> Result<(), Fail> {
    says(
        &rt,
        b"DUS 0001\nS 0E E0\nW 3 41\nC 039C\nR 7\nR 4\n",
        &[
            Command::SetUp { cr: 0x0e, fr: 0xe0 },
            Command::Write {
                select: 3,
                byte: 0x41,
            },
            Command::Cycles { count: 924 },
            Command::Read { select: 7 },
            Command::Read { select: 4 },
        ],
    )
}

// Another first line, at the first byte or end that differs.
#[test]
fn first_lines_that_are_refused_by_8(rt: HostRuntime) -> Result<(), Fail> {
    for (text, column) in [
        ("", 1),
        ("\n", 1),
        (" DUS 0001\n", 1),
        ("dUS 0001\n", 1),
        ("D", 2),
        ("DU\n", 3),
        ("DUS", 4),
        ("DUS\n", 4),
        ("DUS  0001\n", 5),
        ("DUS 1\n", 5),
        ("DUS 0002\n", 8),
        ("DUS 0001", 9),
        ("DUS 0001 \n", 9),
        ("DUS 0001\r\n", 9),
        ("DUS 00010\n", 9),
    ] {
        faults(&rt, &text, text.as_bytes(), bad_first_line(column));
    }
    Ok(())
}

// The first byte or end that misfits after the first line.
#[test]
fn lines_that_are_refused_by_9(rt: HostRuntime) -> Result<(), Fail> {
    for (text, line, column) in [
        ("DUS 0001\nS 0E E0\nW 3 4O\n", 3, 6),
        ("DUS 0001\n\n", 2, 1),
        ("DUS 0001\n ", 2, 1),
        ("DUS 0001\nX 1\n", 2, 1),
        ("DUS 0001\nr 1\n", 2, 1),
        ("DUS 0001\nR", 2, 2),
        ("DUS 0001\nR\n", 2, 2),
        ("DUS 0001\nR ", 2, 3),
        ("DUS 0001\nR  1\n", 2, 3),
        ("DUS 0001\nR 8\n", 2, 3),
        ("DUS 0001\nR 1", 2, 4),
        ("DUS 0001\nR 1 \n", 2, 4),
        ("DUS 0001\nR 10\n", 2, 4),
        ("DUS 0001\nR 1\nR 1\nR", 4, 2),
        ("DUS 0001\nR 1\n\nR 1\n", 3, 1),
        ("DUS 0001\nDUS 0001\n", 2, 1),
    ] {
        faults(&rt, &text, text.as_bytes(), bad_script(line, column));
    }
    Ok(())
}

// The same in the longer commands: a test of its own, as a line that is read wrongly ends its test and hides those after it.
#[test]
fn longer_lines_that_are_refused_by_9(rt: HostRuntime) -> Result<(), Fail> {
    for (text, line, column) in [
        ("DUS 0001\nW 8 00\n", 2, 3),
        ("DUS 0001\nW 1\n", 2, 4),
        ("DUS 0001\nW 1  0\n", 2, 5),
        ("DUS 0001\nW 1 a0\n", 2, 5),
        ("DUS 0001\nW 1 A\n", 2, 6),
        ("DUS 0001\nW 1 Aa\n", 2, 6),
        ("DUS 0001\nC 0000\n", 2, 6),
        ("DUS 0001\nC 000\n", 2, 6),
        ("DUS 0001\nC 1000", 2, 7),
        ("DUS 0001\nC 00010\n", 2, 7),
        ("DUS 0001\nL 0 C 1\n", 2, 3),
        ("DUS 0001\nL 3 C 1\n", 2, 3),
        ("DUS 0001\nL 1 R 1\n", 2, 5),
        ("DUS 0001\nL 1 CTS 1\n", 2, 6),
        ("DUS 0001\nL 1 C 2\n", 2, 7),
        ("DUS 0001\nS 0E\n", 2, 5),
        ("DUS 0001\nS 0EE0\n", 2, 5),
        ("DUS 0001\nS 0E E0", 2, 8),
    ] {
        faults(&rt, &text, text.as_bytes(), bad_script(line, column));
    }
    Ok(())
}

// The number and the text of each refusal.
#[test]
fn the_refusals(rt: HostRuntime) -> Result<(), Fail> {
    for (refusal, number, text) in [
        (
            ScriptRefusal::BadFirstLine,
            8,
            "refusal 8: a script has another first line than DUS 0001",
        ),
        (
            ScriptRefusal::BadScript,
            9,
            "refusal 9: a script has a byte, or its end, where no script has it",
        ),
        (
            ScriptRefusal::ScriptTooLong,
            10,
            "refusal 10: a script has more than 16,384 bytes",
        ),
    ] {
        assert_eq!(rt; refusal.number(), number);
        let printed = format!(in rt.alloc(); "{refusal}")?;
        assert_eq!(rt; printed.as_str(), text);
    }
    Ok(())
}
