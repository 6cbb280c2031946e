ghost use Rattle.std.specs.Prelude.{◌≡◌};
ghost use Rattle.image_transfer.specs.declared.fault.TransferFault.TheVariants as TransferFault;

use disk_model::DeviceFault;
use std::alloc::AllocError;

/// The bytes of a source couldn't be read.
#[derive(Clone, Copy, Debug, PartialEq, Eq)]
pub struct SourceFault;

/// Bytes couldn't be given to a target.
#[derive(Clone, Copy, Debug, PartialEq, Eq)]
pub struct TargetFault;

/// Why a transfer ended early.
#[derive(Clone, Copy, Debug, PartialEq, Eq)]
pub enum TransferFault {
    /// Memory was refused.
    NoMemory,
    /// The source couldn't be read.
    Source,
    /// The target, or the device that is to be an image, couldn't be written.
    Target,
}

impl From<AllocError> for TransferFault {
    ghost from_gives = { λ _ fault. fault ≡ TransferFault.NoMemory };

    fn from(_error: AllocError) -> TransferFault {
        TransferFault::NoMemory
    }
}

impl From<SourceFault> for TransferFault {
    ghost from_gives = { λ _ fault. fault ≡ TransferFault.Source };

    fn from(_fault: SourceFault) -> TransferFault {
        TransferFault::Source
    }
}

impl From<TargetFault> for TransferFault {
    ghost from_gives = { λ _ fault. fault ≡ TransferFault.Target };

    fn from(_fault: TargetFault) -> TransferFault {
        TransferFault::Target
    }
}

impl From<DeviceFault> for TransferFault {
    ghost from_gives = { λ _ fault. fault ≡ TransferFault.Target };

    fn from(_fault: DeviceFault) -> TransferFault {
        TransferFault::Target
    }
}
