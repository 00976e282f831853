// Why there is no answer to a script: a fault of the script, or want of memory.
ghost use Rattle.std.specs.Prelude.{◌≡◌};
ghost use Rattle.script_words.specs.declared.fault.ScriptError.TheVariants.{Fault as Faulty, OutOfMemory};

use crate::position::Position;
use crate::refusal::ScriptRefusal;
use std::alloc::AllocFailed;

// Why a list of bytes is no script, and where.
#[derive(Clone, Copy, PartialEq, Debug)]
pub struct Fault {
    pub refusal: ScriptRefusal,
    pub position: Position,
}

#[derive(Clone, Copy, PartialEq, Debug)]
pub enum ScriptError {
    Fault(Fault),
    OutOfMemory,
}

// This `From` and the next by hand, as a derived one promises nothing of the case that it makes.
impl From<Fault> for ScriptError {
    ghost from_gives = { λ f r. r ≡ Faulty f };

    fn from(fault: Fault) -> ScriptError {
        ScriptError::Fault(fault)
    }
}

impl<T: Drop> From<AllocFailed<T>> for ScriptError {
    ghost from_gives = { λ _ r. r ≡ OutOfMemory };

    fn from(_refused: AllocFailed<T>) -> ScriptError {
        ScriptError::OutOfMemory
    }
}
