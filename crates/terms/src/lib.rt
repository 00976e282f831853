// The words in which a chip is asked and answers: channels, registers and modem lines; notes, reports and refusals.
// Each enum has one definition in specs/ that gives its cases their numbers, and a method `number` (`bit` of a modem line) that says it. These are no
// trait: each impl would repeat the same line for its own type, and nothing is generic over them.
#![tactic(auto)]

pub mod channel_id;
pub mod channels;
pub mod modem_line;
pub mod note;
pub mod or_none;
pub mod refusal;
pub mod register;
pub mod report;
