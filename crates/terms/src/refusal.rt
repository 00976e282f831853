// Why a call is refused.
ghost use Rattle.std.specs.Prelude.{◌≡◌};
ghost use Rattle.terms.specs.Refusal.{refusal_number};

use thiserror::Error;

#[derive(Clone, Copy, PartialEq, Eq, Debug, Error)]
pub enum Refusal {
    #[error("refusal 1: there is no register above select 7")]
    NoSuchSelect = 1,
    #[error("refusal 2: there is nothing to read at selects 2 and 6")]
    NothingToRead = 2,
    #[error("refusal 3: a CR value has bit 7 clear and a rate code below 15")]
    BadControl = 3,
    #[error("refusal 4: an FR value has bit 7 set")]
    BadFormat = 4,
    #[error("refusal 5: a line holds a low level")]
    LineNotQuiet = 5,
    #[error("refusal 6: a sweep has 1 to 2,048 cycles")]
    BadSweepLength = 6,
    #[error("refusal 7: a sweep wants two records for each cycle")]
    TooFewRecords = 7,
}

impl Refusal {
    pub fn number(self) -> u8
        ensures { result ≡ refusal_number self }
    {
        self as u8
    }
}
