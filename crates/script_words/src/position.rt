// Where a byte of a script stands: line and column count from 1; a script that is too long is at line 0, column 0.
#[derive(Clone, Copy, PartialEq, Debug)]
pub struct Position {
    pub line: u32,
    pub column: u32,
}
