ghost use Rattle.std.specs.Prelude.{◌≡◌};
ghost use Rattle.header_slots.specs.declared.fault.HeaderFault.TheVariants as HeaderFault;

use disk_model::DeviceFault;
use thiserror::Error;

/// Why a header wasn't read; `docs/FORMATS.md`, "Refusals", has the numbers.
#[derive(Clone, Copy, Debug, PartialEq, Eq, Error)]
pub enum HeaderFault {
    /// 1: a call of the device failed.
    #[error("device fault")]
    DeviceFault,
    /// 7: no slot's gate is open, or the device is shorter than the two slots.
    #[error("no header")]
    NoHeader,
    /// 8: both gates are open with equal generations, or the header in force breaks a rule.
    #[error("bad header")]
    BadHeader,
}

impl From<DeviceFault> for HeaderFault {
    ghost from_gives = { λ _ fault. fault ≡ HeaderFault.DeviceFault };

    fn from(_fault: DeviceFault) -> HeaderFault {
        HeaderFault::DeviceFault
    }
}
