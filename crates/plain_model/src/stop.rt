//! Why a command was not performed.

ghost use Rattle.std.specs.Prelude.{◌≡◌};
ghost use Rattle.plain_model.specs.declared.stop.Stop.TheVariants.{Fault as IsFault, NoMemory};

use std::alloc::{AllocError, AllocFailed};
use trace_types::Fault;

/// Why a command was not performed.
#[derive(Clone, Copy, Debug, PartialEq, Eq)]
pub enum Stop {
    /// The command has this fault, and the state is as it was.
    Fault(Fault),
    /// Memory ran out, and the state may be any state.
    NoMemory,
}

impl From<Fault> for Stop {
    ghost from_gives = { λ fault stop. stop ≡ IsFault fault };

    fn from(fault: Fault) -> Stop {
        Stop::Fault(fault)
    }
}

impl From<AllocError> for Stop {
    ghost from_gives = { λ _ stop. stop ≡ NoMemory };

    fn from(_error: AllocError) -> Stop {
        Stop::NoMemory
    }
}

impl<T: Drop> From<AllocFailed<T>> for Stop {
    ghost from_gives = { λ _ stop. stop ≡ NoMemory };

    fn from(_error: AllocFailed<T>) -> Stop {
        Stop::NoMemory
    }
}
