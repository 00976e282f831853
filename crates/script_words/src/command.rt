// What a script asks for.
use crate::position::Position;
use terms::channel_id::ChannelId;
use terms::modem_line::ModemLine;

#[derive(Clone, Copy, PartialEq, Debug)]
pub enum Command {
    Read {
        select: u8,
    },
    Write {
        select: u8,
        byte: u8,
    },
    Cycles {
        count: u16,
    },
    Modem {
        channel: ChannelId,
        line: ModemLine,
        level: bool,
    },
    SetUp {
        cr: u8,
        fr: u8,
    },
}

// A command with the position of its letter in the script.
#[derive(Clone, Copy, PartialEq, Debug)]
pub struct Placed {
    pub command: Command,
    pub position: Position,
}
