ghost use Rattle.std.specs.Prelude.{◌≡◌};
ghost use Rattle.negotiation.specs.declared.end.End.TheVariants.{IoFault, NoMemory};
ghost use Rattle.negotiation.specs.Ends.{end_for};

use nbd_wire::{StreamFault, WireFault};
use std::alloc::AllocError;
use std::error::Error;
use std::fmt;
use std::fmt::{Display, Formatter};

/// Why a session ended otherwise than its client asked for.
#[derive(Clone, Copy, Debug, PartialEq, Eq)]
pub enum End {
    /// Refusal 0 (no memory): memory ran out.
    NoMemory,
    /// Refusal 19 (peer closed): the input ended, and nobody had ended the session.
    PeerClosed,
    /// Refusal 20 (protocol end): what the client sent ends the session.
    ProtocolEnd,
    /// Refusal 21 (stream fault): a read or a write failed.
    IoFault,
}

impl End {
    // What is printed of it.
    fn text(self) -> &'static str {
        match self {
            End::NoMemory => "no memory",
            End::PeerClosed => "peer closed",
            End::ProtocolEnd => "protocol end",
            End::IoFault => "stream fault",
        }
    }
}

// Written out, one call writes the text, where a derived one has a call for each variant.
impl Display for End {
    fn fmt<W: fmt::Write>(&self, f: &mut Formatter<W>) -> fmt::Result {
        f.write_str(self.text())
    }
}

impl Error for End {}

impl From<AllocError> for End {
    ghost from_gives = { λ _ end. end ≡ NoMemory };

    fn from(_error: AllocError) -> End {
        End::NoMemory
    }
}

impl From<StreamFault> for End {
    ghost from_gives = { λ _ end. end ≡ IoFault };

    fn from(_fault: StreamFault) -> End {
        End::IoFault
    }
}

impl From<WireFault> for End {
    ghost from_gives = { λ fault end. end ≡ end_for fault };

    fn from(fault: WireFault) -> End {
        match fault {
            WireFault::NoMemory => End::NoMemory,
            WireFault::Malformed(_) => End::ProtocolEnd,
        }
    }
}
