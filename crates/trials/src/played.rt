// A model as it is played on: a chip alone, or a board. It answers in the words of the first model.

use crate::answer::Levels;
use board::record::Record;
use dacia::access::{ReadAccess, WriteAccess};
use dacia::chip::{ChipAnswer, Inputs};
use second_model::Chip;
use std::alloc::{AllocError, Global};
use terms::channel_id::ChannelId;
use terms::modem_line::ModemLine;
use terms::note::{Reading, WriteNote};
use terms::refusal::Refusal;

pub(crate) trait Played {
    // Whether it is a chip alone.
    const ALONE: bool;

    fn read(&mut self, select: u8) -> Result<Reading, Refusal>;

    fn write(&mut self, select: u8, byte: u8) -> Result<Option<WriteNote>, Refusal>;

    fn set_modem(&mut self, channel: ChannelId, line: ModemLine, level: bool);

    // One cycle; a board makes its inputs itself.
    fn cycle(&mut self, inputs: Inputs) -> ChipAnswer;

    fn levels(&self) -> Levels;

    // A reset; a board has none.
    fn reset(&mut self) {}

    // Set-up and sweep; a chip alone has neither.
    fn set_up(&mut self, _cr: u8, _fr: u8) -> Result<(), Refusal> {
        Ok(())
    }

    // A sweep into records, and how many it has written. A refusal is an answer that is compared, and want of memory ends the
    // trial: so the one stands in the other.
    fn sweep(
        &mut self,
        _heap: Global,
        _cycles: u16,
        _records: &mut [Record],
    ) -> Result<Result<usize, Refusal>, AllocError> {
        Ok(Ok(0))
    }
}

// The first model, whose accesses can stay open during other calls.
pub(crate) trait First: Played {
    fn end_read(&mut self, access: ReadAccess) -> Result<Reading, Refusal>;

    fn end_write(&mut self, access: WriteAccess, byte: u8) -> Option<WriteNote>;
}

// The second model, whose chip shows more than its calls do.
pub(crate) trait Second: Played {
    fn chip(&self) -> &Chip;
}
