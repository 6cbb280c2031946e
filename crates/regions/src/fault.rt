ghost use Rattle.std.specs.Prelude.{◌≡◌};
ghost use Rattle.regions.specs.declared.fault.RegionFault.TheVariants as RegionFault;

use alloc_map::BadMap;
use disk_model::DeviceFault;
use std::alloc::AllocError;
use thiserror::Error;

/// Why a map wasn't read; `docs/FORMATS.md`, "Refusals", has the numbers.
#[derive(Clone, Copy, Debug, PartialEq, Eq, Error)]
pub enum RegionFault {
    /// 0: memory was refused.
    #[error("no memory")]
    NoMemory,
    /// 1: a call of the device failed.
    #[error("device fault")]
    DeviceFault,
    /// 6: a block of the map has code 3, or a bit past the last block is set.
    #[error("bad map")]
    BadMap,
}

impl From<DeviceFault> for RegionFault {
    ghost from_gives = { λ _ fault. fault ≡ RegionFault.DeviceFault };

    fn from(_fault: DeviceFault) -> RegionFault {
        RegionFault::DeviceFault
    }
}

impl From<AllocError> for RegionFault {
    ghost from_gives = { λ _ fault. fault ≡ RegionFault.NoMemory };

    fn from(_error: AllocError) -> RegionFault {
        RegionFault::NoMemory
    }
}

impl From<BadMap> for RegionFault {
    ghost from_gives = { λ _ fault. fault ≡ RegionFault.BadMap };

    fn from(_bad: BadMap) -> RegionFault {
        RegionFault::BadMap
    }
}
