ghost use Rattle.std.specs.Prelude.{◌≡◌};
ghost use Rattle.option_wire.specs.declared.error.OptionFault.TheVariants.{NoMemory, Malformed};

use std::alloc::{AllocError, AllocFailed};
use thiserror::Error;

/// The bytes are no message of the handshake: refusal 5 (malformed).
#[derive(Clone, Copy, Debug, PartialEq, Eq, Error)]
#[error("malformed")]
pub struct Malformed;

/// Why an option isn't read.
#[derive(Clone, Copy, Debug, Error)]
pub enum OptionFault {
    /// Refusal 0 (no memory): memory ran out.
    #[error("no memory")]
    NoMemory,
    /// Refusal 5 (malformed): the data are none of the option's.
    #[error("malformed")]
    Malformed,
}

impl From<AllocError> for OptionFault {
    ghost from_gives = { λ _ fault. fault ≡ NoMemory };

    fn from(_error: AllocError) -> OptionFault {
        OptionFault::NoMemory
    }
}

impl<T: Drop> From<AllocFailed<T>> for OptionFault {
    ghost from_gives = { λ _ fault. fault ≡ NoMemory };

    fn from(_error: AllocFailed<T>) -> OptionFault {
        OptionFault::NoMemory
    }
}
