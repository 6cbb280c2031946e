ghost use Rattle.std.specs.Prelude.{◌≡◌};
ghost use Rattle.front_end.specs.Refusals.{number_of, of_keeper, of_wire};
ghost use Rattle.front_end.specs.declared.refusal.Refusal.TheVariants as Refusal;

use checkpoint::KeeperFault;
use disk_model::DeviceFault;
use nbd_wire::{StreamFault, WireFault};
use std::alloc::AllocError;
use std::error::Error;
use std::fmt;
use std::fmt::{Display, Formatter};

/// Why a run of the program ended early. `docs/FORMATS.md`, "Refusals", says when each comes; a `KeeperFault` has its number and text
/// here.
#[derive(Clone, Copy, Debug, PartialEq, Eq)]
pub enum Refusal {
    NoMemory,
    DeviceFault,
    BadMap,
    NoHeader,
    BadHeader,
    NumbersFull,
    AreaFull,
    OutOfOrder,
    DamagedGroup,
    NotNow,
    Failed,
    NoRoom,
    PeerClosed,
    ProtocolEnd,
    StreamFault,
    AreaSmall,
}

impl Refusal {
    /// The number that is printed after the text.
    pub fn number(self) -> u8
        ensures { result ≡ number_of self }
    {
        match self {
            Refusal::NoMemory => 0,
            Refusal::DeviceFault => 1,
            Refusal::BadMap => 6,
            Refusal::NoHeader => 7,
            Refusal::BadHeader => 8,
            Refusal::NumbersFull => 9,
            Refusal::AreaFull => 10,
            Refusal::OutOfOrder => 11,
            Refusal::DamagedGroup => 12,
            Refusal::NotNow => 15,
            Refusal::Failed => 16,
            Refusal::NoRoom => 17,
            Refusal::PeerClosed => 19,
            Refusal::ProtocolEnd => 20,
            Refusal::StreamFault => 21,
            Refusal::AreaSmall => 22,
        }
    }

    // What is printed of it.
    fn text(self) -> &'static str {
        match self {
            Refusal::NoMemory => "no memory",
            Refusal::DeviceFault => "device fault",
            Refusal::BadMap => "bad map",
            Refusal::NoHeader => "no header",
            Refusal::BadHeader => "bad header",
            Refusal::NumbersFull => "numbers full",
            Refusal::AreaFull => "area full",
            Refusal::OutOfOrder => "out of order",
            Refusal::DamagedGroup => "damaged group",
            Refusal::NotNow => "not now",
            Refusal::Failed => "failed",
            Refusal::NoRoom => "no room",
            Refusal::PeerClosed => "peer closed",
            Refusal::ProtocolEnd => "protocol end",
            Refusal::StreamFault => "stream fault",
            Refusal::AreaSmall => "area too small",
        }
    }
}

// Written out, one call writes the text, where a derived one has a call for each variant.
impl Display for Refusal {
    fn fmt<W: fmt::Write>(&self, f: &mut Formatter<W>) -> fmt::Result {
        f.write_str(self.text())
    }
}

impl Error for Refusal {}

impl From<AllocError> for Refusal {
    ghost from_gives = { λ _ refusal. refusal ≡ Refusal.NoMemory };

    fn from(_error: AllocError) -> Refusal {
        Refusal::NoMemory
    }
}

impl From<DeviceFault> for Refusal {
    ghost from_gives = { λ _ refusal. refusal ≡ Refusal.DeviceFault };

    fn from(_fault: DeviceFault) -> Refusal {
        Refusal::DeviceFault
    }
}

impl From<StreamFault> for Refusal {
    ghost from_gives = { λ _ refusal. refusal ≡ Refusal.StreamFault };

    fn from(_fault: StreamFault) -> Refusal {
        Refusal::StreamFault
    }
}

impl From<KeeperFault> for Refusal {
    ghost from_gives = { λ fault refusal. refusal ≡ of_keeper fault };

    fn from(fault: KeeperFault) -> Refusal {
        match fault {
            KeeperFault::NoMemory => Refusal::NoMemory,
            KeeperFault::DeviceFault => Refusal::DeviceFault,
            KeeperFault::BadMap => Refusal::BadMap,
            KeeperFault::NoHeader => Refusal::NoHeader,
            KeeperFault::BadHeader => Refusal::BadHeader,
            KeeperFault::NumbersFull => Refusal::NumbersFull,
            KeeperFault::AreaFull => Refusal::AreaFull,
            KeeperFault::OutOfOrder => Refusal::OutOfOrder,
            KeeperFault::DamagedGroup => Refusal::DamagedGroup,
            KeeperFault::NotNow => Refusal::NotNow,
            KeeperFault::Failed => Refusal::Failed,
            KeeperFault::AreaSmall => Refusal::AreaSmall,
        }
    }
}

impl From<WireFault> for Refusal {
    ghost from_gives = { λ fault refusal. refusal ≡ of_wire fault };

    fn from(fault: WireFault) -> Refusal {
        match fault {
            WireFault::NoMemory => Refusal::NoMemory,
            WireFault::Malformed(_) => Refusal::ProtocolEnd,
        }
    }
}
