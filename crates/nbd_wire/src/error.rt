ghost use Rattle.std.specs.Prelude.{◌≡◌};
ghost use Rattle.nbd_wire.specs.Errno.{errno_number};

use thiserror::Error;

/// The four bytes in a message's place aren't its magic number: refusal 3 (bad magic).
#[derive(Clone, Copy, Debug, PartialEq, Eq, Error)]
#[error("bad magic")]
pub struct BadMagic;

/// Why no request can be read from a stream any more.
#[derive(Clone, Copy, Debug, PartialEq, Eq, Error)]
pub enum RequestFault {
    /// Refusal 3 (bad magic): where a request should begin stands another magic number.
    #[error("bad magic")]
    BadMagic,
    /// Refusal 4 (too long): a WRITE announces more data than a server reads.
    #[error("too long")]
    TooLong,
}

/// Why no further request is handed out.
#[derive(Clone, Copy, Debug, PartialEq, Eq, Error)]
pub enum WireFault {
    /// Refusal 0 (no memory): memory ran out.
    #[error("no memory")]
    NoMemory,
    /// Refusals 3 (bad magic) and 4 (too long): what stands in the stream is no request.
    #[error(transparent)]
    Malformed(RequestFault),
}

/// An error that a reply carries ("Error values" of NBD's `proto.md`).
#[derive(Clone, Copy, PartialEq, Eq)]
pub enum Errno {
    /// EIO: the device failed.
    Io,
    /// ENOMEM: memory ran out.
    NoMemory,
    /// EINVAL: the request is malformed.
    Invalid,
    /// ENOSPC: the request reaches past the end of the export.
    NoSpace,
}

impl Errno {
    /// The number on the wire.
    pub fn number(self) -> u32
        ensures { result ≡ errno_number self }
    {
        match self {
            Errno::Io => 5,
            Errno::NoMemory => 12,
            Errno::Invalid => 22,
            Errno::NoSpace => 28,
        }
    }
}
