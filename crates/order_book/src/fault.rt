use std::error::Error;
use std::fmt;
use std::fmt::{Display, Formatter};

/// Why a call of the order was refused; `docs/FORMATS.md`, "Refusals", has the numbers.
#[derive(Clone, Copy, Debug, PartialEq, Eq)]
pub enum OrderFault {
    /// 0: a growth of memory was refused.
    NoMemory,
    /// 1: a call of the device that was to read old bytes of an edit failed.
    DeviceFault,
    /// 9: the last number of 64 bits is taken.
    NumbersFull,
    /// 16: old bytes of an edit were to be read, and the keeper had failed before.
    Failed,
    /// 17: too many blocks are dirty, or too many bytes aren't durable.
    NoRoom,
    /// 18: the order was stopped.
    Stopped,
}

impl OrderFault {
    // What is printed of it.
    fn text(self) -> &'static str {
        match self {
            OrderFault::NoMemory => "no memory",
            OrderFault::DeviceFault => "device fault",
            OrderFault::NumbersFull => "numbers full",
            OrderFault::Failed => "failed",
            OrderFault::NoRoom => "no room",
            OrderFault::Stopped => "stopped",
        }
    }
}

// Written out, one call writes the text, where a derived one has a call for each variant.
impl Display for OrderFault {
    fn fmt<W: fmt::Write>(&self, f: &mut Formatter<W>) -> fmt::Result {
        f.write_str(self.text())
    }
}

impl Error for OrderFault {}
