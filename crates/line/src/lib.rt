// Delay lines. What a line means is the list of levels that it holds, the first to leave first.
#![tactic(auto)]

pub mod joint;
pub mod line;
pub mod table_line;
pub mod wire;
