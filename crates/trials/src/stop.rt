// Why a history is not played to its end.

use crate::answer::Answer;
use std::alloc::AllocError;
use std::fmt;
use thiserror::Error;

// The call under way, and the cycle of its run.
#[derive(Clone, Copy, PartialEq, Eq, Debug, Default)]
pub(crate) struct Place {
    pub(crate) call: usize,
    pub(crate) cycle: u32,
}

// A difference between the models: where, and what each model has.
#[derive(Clone, Copy, PartialEq, Eq, Debug)]
pub(crate) struct Difference {
    pub(crate) place: Place,
    pub(crate) first: Answer,
    pub(crate) second: Answer,
}

#[derive(Debug, Drop, Error)]
pub(crate) enum Stop {
    #[error("the models differ")]
    Differs(Difference),
    #[error("no memory")]
    NoMemory(#[from(alloc)] AllocError),
}

impl Place {
    // What both models have, or else the difference.
    pub(crate) fn same<T: PartialEq + Copy, F: Fn(T) -> Answer>(
        self,
        kind: F,
        first: T,
        second: T,
    ) -> Result<Answer, Stop>
        requires { F.IsAlwaysCallable kind }
    {
        if first == second {
            Ok(kind(first))
        } else {
            Err(self.differs(kind(first), kind(second)))
        }
    }

    #[cold]
    fn differs(self, first: Answer, second: Answer) -> Stop {
        Stop::Differs(Difference {
            place: self,
            first,
            second,
        })
    }
}

impl fmt::Display for Difference {
    fn fmt<W: fmt::Write>(&self, f: &mut fmt::Formatter<W>) -> fmt::Result {
        let Difference {
            place: Place { call, cycle },
            first,
            second,
        } = self;
        write!(
            f,
            "call {call}, cycle {cycle} of it, {}: first model {first}; second model {second}",
            first.subject()
        )
    }
}
