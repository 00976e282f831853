// Every byte at every place of a line, and every cut of a script.
use crate::answers::{bad_first_line, bad_script, counts, faults};
use std::alloc::{AllocError, Global};
use std::test::Fail;

// Whether a byte fits a place. A place is one letter, so that a row of them can be read as a line: `s` is a select,
// `h` a digit, `n` a digit above 0, `c` a channel, `m` a modem line, `v` a level, and any other the byte itself.
fn fits(byte: u8, place: u8) -> bool {
    match place {
        b's' => b"01234567".contains(&byte),
        b'h' => b"0123456789ABCDEF".contains(&byte),
        b'n' => b"123456789ABCDEF".contains(&byte),
        b'c' => b"12".contains(&byte),
        b'm' => b"CDS".contains(&byte),
        b'v' => b"01".contains(&byte),
        _ => byte == place,
    }
}

// The text with another byte at a place.
fn changed(heap: Global, text: &str, at: usize, byte: u8) -> Result<Vec<u8>, AllocError> {
    text.bytes()
        .enumerate()
        .map(|(i, old)| if i == at { byte } else { old })
        .collect(heap)
}

#[test]
fn every_byte_in_the_first_line(rt: HostRuntime) -> Result<(), Fail> {
    let text = "DUS 0001\nR 1\n";
    for (column, (at, right)) in (1..).zip("DUS 0001\n".bytes().enumerate()) {
        for byte in 0..=255u8 {
            let script = changed(rt.alloc(), text, at, byte)?;
            if byte == right {
                counts(&rt, &byte, &script, 1)?;
            } else {
                faults(&rt, &byte, &script, bad_first_line(column));
            }
        }
    }
    Ok(())
}

// Line 2 with every byte at every place after its letter; the line after it is good.
#[test]
fn every_byte_in_a_line(rt: HostRuntime) -> Result<(), Fail> {
    for (text, places) in [
        ("DUS 0001\nR 3\nR 1\n", " s\n"),
        ("DUS 0001\nW 5 9A\nR 1\n", " s hh\n"),
        ("DUS 0001\nC 0001\nR 1\n", " hhhn\n"),
        ("DUS 0001\nC 0F20\nR 1\n", " hhhh\n"),
        ("DUS 0001\nL 2 D 1\nR 1\n", " c m v\n"),
        ("DUS 0001\nS 0E E0\nR 1\n", " hh hh\n"),
    ] {
        for ((at, column), place) in (10..).zip(2..).zip(places.bytes()) {
            for byte in 0..=255u8 {
                let script = changed(rt.alloc(), text, at, byte)?;
                if fits(byte, place) {
                    counts(&rt, &text, &script, 2)?;
                } else {
                    faults(&rt, &text, &script, bad_script(2, column));
                }
            }
        }
    }
    Ok(())
}

// A letter that begins no command is a fault there, and one that begins another command one further on.
#[test]
fn every_byte_for_a_letter(rt: HostRuntime) -> Result<(), Fail> {
    for byte in 0..=255u8 {
        let script = changed(rt.alloc(), "DUS 0001\nR 1\n", 9, byte)?;
        match byte {
            b'R' => counts(&rt, &byte, &script, 1)?,
            b'W' | b'L' | b'C' | b'S' => faults(&rt, &byte, &script, bad_script(2, 4)),
            _ => faults(&rt, &byte, &script, bad_script(2, 1)),
        }
    }
    Ok(())
}

// Cut anywhere but at the end of a line, a script has its fault at its end.
#[test]
fn every_cut(rt: HostRuntime) -> Result<(), Fail> {
    let mut script = Vec::new(rt.alloc());
    for (line, text, commands) in [
        (1, "DUS 0001\n", 0),
        (2, "S 0E E0\n", 0),
        (3, "W 3 41\n", 1),
        (4, "C 039C\n", 2),
        (5, "L 1 C 0\n", 3),
        (6, "R 7\n", 4),
    ] {
        for (column, byte) in (1..).zip(text.bytes()) {
            match (line, column) {
                (1, _) => faults(&rt, &script.len(), &script, bad_first_line(column)),
                (_, 1) => counts(&rt, &script.len(), &script, commands)?,
                _ => faults(&rt, &script.len(), &script, bad_script(line, column)),
            }
            script.push(byte)?;
        }
    }
    counts(&rt, &"uncut", &script, 5)
}
