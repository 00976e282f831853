// The sending side of a channel: TDR and the transmitter that takes words from it.
ghost use Rattle.std.specs.Prelude.{◌≡◌, Bool};
ghost use Rattle.channel.specs.Sender.{tdr_note, filled, sent};

use serial::transmitter::{Setting, Transmitter};
use terms::note::WriteNote;

#[derive(Clone, Copy)]
pub struct Sender {
    pub(crate) tdr: Option<u8>,
    pub(crate) transmitter: Transmitter,
}

impl Sender {
    // A write to TDR.
    pub(crate) fn write(&mut self, word: u8) -> WriteNote
        ensures answers { result ≡ tdr_note self.old }
        ensures leaves { self.new ≡ filled word self.old }
    {
        match self.tdr.replace(word) {
            Some(_) => WriteNote::Replaced,
            None => WriteNote::Stored,
        }
    }

    // One tick of the transmitter; TDR is empty once its word is taken.
    pub(crate) fn tick(&mut self, set: Setting)
        ensures { self.new ≡ sent set.format set.break_on set.cts self.old }
    {
        if self.transmitter.tick(set, self.tdr) {
            self.tdr = None;
        }
    }
}
