ghost use Rattle.std.specs.Prelude.{◌≡◌};
ghost use Rattle.checkpoint.specs.Faults.{of_header, of_journal, of_region};
ghost use Rattle.checkpoint.specs.declared.fault.KeeperFault.TheVariants as KeeperFault;

use disk_model::DeviceFault;
use header_slots::HeaderFault;
use journal_format::JournalFault;
use regions::RegionFault;
use std::alloc::AllocError;

/// Why a call of the keeper was refused. The number and the text of each stand in one table, that of `Refusal` in `front_end`.
#[derive(Clone, Copy, Debug, PartialEq, Eq)]
pub enum KeeperFault {
    /// A growth of memory was refused.
    NoMemory,
    /// A call of the device failed.
    DeviceFault,
    /// The map in the header's map slot has a block with code 3, or a bit past the last block is set.
    BadMap,
    /// No header is in force.
    NoHeader,
    /// The header in force breaks a rule.
    BadHeader,
    /// No generation is greater than that of the header in force.
    NumbersFull,
    /// The group doesn't fit the area.
    AreaFull,
    /// The group's first number isn't the next.
    OutOfOrder,
    /// No whole group stands after an open gate.
    DamagedGroup,
    /// The checkpoint isn't at this step.
    NotNow,
    /// A call of the device has failed before; open the device again.
    Failed,
    /// Layout 2 would have areas below their limit.
    AreaSmall,
}

impl From<DeviceFault> for KeeperFault {
    ghost from_gives = { λ _ fault. fault ≡ KeeperFault.DeviceFault };

    fn from(_fault: DeviceFault) -> KeeperFault {
        KeeperFault::DeviceFault
    }
}

impl From<AllocError> for KeeperFault {
    ghost from_gives = { λ _ fault. fault ≡ KeeperFault.NoMemory };

    fn from(_error: AllocError) -> KeeperFault {
        KeeperFault::NoMemory
    }
}

impl From<HeaderFault> for KeeperFault {
    ghost from_gives = { λ fault given. given ≡ of_header fault };

    fn from(fault: HeaderFault) -> KeeperFault {
        match fault {
            HeaderFault::DeviceFault => KeeperFault::DeviceFault,
            HeaderFault::NoHeader => KeeperFault::NoHeader,
            HeaderFault::BadHeader => KeeperFault::BadHeader,
        }
    }
}

impl From<RegionFault> for KeeperFault {
    ghost from_gives = { λ fault given. given ≡ of_region fault };

    fn from(fault: RegionFault) -> KeeperFault {
        match fault {
            RegionFault::NoMemory => KeeperFault::NoMemory,
            RegionFault::DeviceFault => KeeperFault::DeviceFault,
            RegionFault::BadMap => KeeperFault::BadMap,
        }
    }
}

impl From<JournalFault> for KeeperFault {
    ghost from_gives = { λ fault given. given ≡ of_journal fault };

    fn from(fault: JournalFault) -> KeeperFault {
        match fault {
            JournalFault::NoMemory => KeeperFault::NoMemory,
            JournalFault::DeviceFault => KeeperFault::DeviceFault,
            JournalFault::AreaFull => KeeperFault::AreaFull,
            JournalFault::OutOfOrder => KeeperFault::OutOfOrder,
            JournalFault::DamagedGroup => KeeperFault::DamagedGroup,
        }
    }
}
