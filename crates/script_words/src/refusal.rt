// Why a text is no script.
ghost use Rattle.std.specs.Prelude.{◌≡◌};
ghost use Rattle.script_words.specs.Refusal.{script_refusal_number};

use thiserror::Error;

// Each cause has its number; those of chip and board go up to 7. As there, `number` is no trait: nothing is generic over it.
#[derive(Clone, Copy, PartialEq, Eq, Debug, Error)]
pub enum ScriptRefusal {
    #[error("refusal 8: a script has another first line than DUS 0001")]
    BadFirstLine = 8,
    #[error("refusal 9: a script has a byte, or its end, where no script has it")]
    BadScript = 9,
    #[error("refusal 10: a script has more than 16,384 bytes")]
    ScriptTooLong = 10,
}

impl ScriptRefusal {
    pub fn number(self) -> u8
        ensures { result ≡ script_refusal_number self }
    {
        self as u8
    }
}
