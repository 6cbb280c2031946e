ghost use Rattle.std.specs.Prelude.{◌≡◌};
ghost use Rattle.journal_format.specs.declared.fault.JournalFault.TheVariants as JournalFault;

use disk_model::DeviceFault;
use std::alloc::AllocError;
use std::error::Error;
use std::fmt;
use std::fmt::{Display, Formatter};

/// Why a call of the journal was refused; `docs/FORMATS.md`, "Refusals", has the numbers.
#[derive(Clone, Copy, Debug, PartialEq, Eq)]
pub enum JournalFault {
    /// 0: a growth of memory was refused.
    NoMemory,
    /// 1: a call of the device failed.
    DeviceFault,
    /// 10: the group and the gate after it don't fit the area.
    AreaFull,
    /// 11: the group fits, and its first number isn't the area's next.
    OutOfOrder,
    /// 12: no whole group stands after an open gate.
    DamagedGroup,
}

impl JournalFault {
    // What is printed of it.
    fn text(self) -> &'static str {
        match self {
            JournalFault::NoMemory => "no memory",
            JournalFault::DeviceFault => "device fault",
            JournalFault::AreaFull => "area full",
            JournalFault::OutOfOrder => "out of order",
            JournalFault::DamagedGroup => "damaged group",
        }
    }
}

// Written out, one call writes the text, where a derived one has a call for each variant.
impl Display for JournalFault {
    fn fmt<W: fmt::Write>(&self, f: &mut Formatter<W>) -> fmt::Result {
        f.write_str(self.text())
    }
}

impl Error for JournalFault {}

impl From<DeviceFault> for JournalFault {
    ghost from_gives = { λ _ fault. fault ≡ JournalFault.DeviceFault };

    fn from(_fault: DeviceFault) -> JournalFault {
        JournalFault::DeviceFault
    }
}

impl From<AllocError> for JournalFault {
    ghost from_gives = { λ _ fault. fault ≡ JournalFault.NoMemory };

    fn from(_error: AllocError) -> JournalFault {
        JournalFault::NoMemory
    }
}
