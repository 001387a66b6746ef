//! Why reading stops.
ghost use Rattle.std.specs.Prelude.{◌≡◌};
ghost use Rattle.bh_decode.specs.Stops.{stop_behind, refusal_of, IsStopWithin};

use bh_spec::{Part, Refusal};

/// Why a part of a message isn't whole: `at` counts in the bytes that were left.
#[derive(Clone, Copy, Debug, Drop, PartialEq, Eq)]
pub enum Stop {
    /// Nothing has the byte numbered `at` there.
    Dead { at: usize, part: Part },
    /// Nothing within the limits has it there.
    Limit { at: usize, part: Part },
    /// The bytes end, and a byte of this part is missing.
    Ended { part: Part },
}

impl Stop {
    /// The same, with `before` bytes before those that it counts. There are fewer than 2^63 of them and before them.
    pub fn behind(self, before: usize) -> Stop
        requires { IsStopWithin before self }
        ensures { result ≡ stop_behind before self }
    {
        match self {
            Stop::Dead { at, part } => Stop::Dead {
                at: before + at,
                part,
            },
            Stop::Limit { at, part } => Stop::Limit {
                at: before + at,
                part,
            },
            Stop::Ended { part } => Stop::Ended { part },
        }
    }

    /// The refusal of an input of `long` bytes at whose beginning it counts.
    pub fn refusal(self, long: usize) -> Refusal
        ensures { result ≡ refusal_of long self }
    {
        match self {
            Stop::Dead { at, part } => Refusal::Dead {
                at: at as u64,
                part,
            },
            Stop::Limit { at, part } => Refusal::Limit {
                at: at as u64,
                part,
            },
            Stop::Ended { part } => Refusal::Ended {
                at: long as u64,
                part,
            },
        }
    }
}
