// Reads a script, a list of bytes in lines, into commands, or says where and why it is no script.
#![tactic(auto)]

pub mod reader;
