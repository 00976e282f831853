// Two boards that are to be alike.
use board::board::Board;
use line::line::Line;
use std::process::Abort;
use std::test::Fail;

// The registers that can be read. The tests of the chip have this list too: the two crates of tests share no code.
const READABLE: [u8; 6] = [0, 1, 3, 4, 5, 7];

// So many cycles, and then all registers: both boards answer the same.
pub(crate) fn alike<A: Line, B: Line>(
    rt: &impl Abort,
    left: &mut Board<A, B>,
    right: &mut Board<A, B>,
    cycles: u16,
) -> Result<(), Fail> {
    for cycle in 0..cycles {
        assert_eq!(rt; left.cycle(), right.cycle(), "{}", cycle);
    }
    for select in READABLE {
        assert_eq!(rt; left.read(select)?, right.read(select)?, "{}", select);
    }
    Ok(())
}
