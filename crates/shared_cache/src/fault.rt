ghost use Rattle.std.specs.Prelude.{◌≡◌};
ghost use Rattle.shared_cache.specs.declared.fault.KeepFault.TheVariants as KeepFault;

use std::alloc::AllocError;
use thiserror::Error;

/// Why blocks weren't kept; `docs/FORMATS.md`, "Refusals", has the numbers.
#[derive(Clone, Copy, Debug, PartialEq, Eq, Error)]
pub enum KeepFault {
    /// Refusal 0 (no memory): a growth of memory was refused.
    #[error("no memory")]
    NoMemory,
    /// Refusal 13 (no frame): the frames don't suffice.
    #[error("no frame")]
    NoFrame,
}

impl From<AllocError> for KeepFault {
    ghost from_gives = { λ _ fault. fault ≡ KeepFault.NoMemory };

    fn from(_error: AllocError) -> KeepFault {
        KeepFault::NoMemory
    }
}

/// Refusal 14 (missing block): a block that is data has no frame.
#[derive(Clone, Copy, Debug, PartialEq, Eq, Error)]
#[error("missing block")]
pub struct Missing;
