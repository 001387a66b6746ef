//! Why nothing was read.
ghost use Rattle.std.specs.Prelude.{◌≡◌};
ghost use Rattle.bh_decode.specs.Stops.{AtStop, IsStopWithin, fault_behind};
ghost use Rattle.bh_decode.specs.declared.fault.Fault.TheVariants as faults;

use crate::stop::Stop;
use bh_base::NoMemory;
use std::alloc::AllocError;

/// Why nothing was read.
#[derive(Clone, Copy, Debug, Drop, PartialEq, Eq)]
pub enum Fault {
    /// The bytes are refused, or they end too soon.
    Stop(Stop),
    /// Memory ran out.
    NoMemory,
}

impl Fault {
    /// The same, with `before` bytes before those that it counts. There are fewer than 2^63 of them and before them.
    pub fn behind(self, before: usize) -> Fault
        requires { AtStop (IsStopWithin before) self }
        ensures { result ≡ fault_behind before self }
    {
        match self {
            Fault::Stop(stop) => Fault::Stop(stop.behind(before)),
            Fault::NoMemory => Fault::NoMemory,
        }
    }
}

impl From<Stop> for Fault {
    ghost from_gives = { λ stop fault. fault ≡ faults.Stop stop };

    fn from(stop: Stop) -> Fault {
        Fault::Stop(stop)
    }
}

impl From<NoMemory> for Fault {
    ghost from_gives = { λ _ fault. fault ≡ faults.NoMemory };

    fn from(_: NoMemory) -> Fault {
        Fault::NoMemory
    }
}

impl From<AllocError> for Fault {
    ghost from_gives = { λ _ fault. fault ≡ faults.NoMemory };

    fn from(_: AllocError) -> Fault {
        Fault::NoMemory
    }
}
