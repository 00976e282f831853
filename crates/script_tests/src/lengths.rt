// Lengths around 16,384 bytes.
use crate::answers::{TOO_LONG, bad_first_line, bad_script, counts, faults};
use std::alloc::{AllocError, Global};
use std::test::Fail;

// A script of so many lines of four bytes and so many of seven.
fn long_script(heap: Global, fours: usize, sevens: usize) -> Result<Vec<u8>, AllocError> {
    let mut script = Vec::from_slice(heap, b"DUS 0001\n")?;
    for _ in 0..fours {
        script.extend_from_slice(b"R 5\n")?;
    }
    for _ in 0..sevens {
        script.extend_from_slice(b"C 0010\n")?;
    }
    Ok(script)
}

#[test]
fn scripts_of_up_to_16384_bytes_are_read(rt: HostRuntime) -> Result<(), Fail> {
    for (fours, sevens, length, commands) in [(4090, 2, 16383, 4092), (4092, 1, 16384, 4093)] {
        let script = long_script(rt.alloc(), fours, sevens)?;
        assert_eq!(rt; script.len(), length);
        counts(&rt, &length, &script, commands)?;
    }
    Ok(())
}

#[test]
fn longer_scripts_are_refused_by_10(rt: HostRuntime) -> Result<(), Fail> {
    for (fours, sevens, length) in [(4094, 0, 16385), (4091, 2, 16387), (8000, 0, 32009)] {
        let script = long_script(rt.alloc(), fours, sevens)?;
        assert_eq!(rt; script.len(), length);
        faults(&rt, &length, &script, TOO_LONG);
    }
    Ok(())
}

// 10 comes before 8 and 9.
#[test]
fn length_is_looked_at_first(rt: HostRuntime) -> Result<(), Fail> {
    let most = vec![in rt.alloc(); b'x'; 16384]?;
    faults(&rt, &"16,384 bytes", &most, bad_first_line(1));
    let more = vec![in rt.alloc(); b'x'; 16385]?;
    faults(&rt, &"16,385 bytes", &more, TOO_LONG);
    Ok(())
}

// A fault in the last line of a long script.
#[test]
fn the_line_of_a_late_fault(rt: HostRuntime) -> Result<(), Fail> {
    let mut script = long_script(rt.alloc(), 4000, 0)?;
    script.extend_from_slice(b"W 3 4O\n")?;
    faults(&rt, &"W 3 4O", &script, bad_script(4002, 6));
    Ok(())
}
