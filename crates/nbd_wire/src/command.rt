ghost use Rattle.std.specs.Prelude.{⊤, [], ◌∷◌, codes};

use bitflags::{Flag, Flags, bitflag_items};

/// Reads `length` bytes from `offset` on.
pub const READ: u16 = 0;
/// Writes the data that follow the head.
pub const WRITE: u16 = 1;
/// Ends the connection, with no reply.
pub const DISCONNECT: u16 = 2;
/// Makes stable what was written before.
pub const FLUSH: u16 = 3;
/// Says that the bytes are needed no more.
pub const TRIM: u16 = 4;
/// Writes zero bytes, with no data.
pub const WRITE_ZEROES: u16 = 6;
/// Asks in which state the bytes are.
pub const BLOCK_STATUS: u16 = 7;

/// The flags of a request ("Command flags" of NBD's `proto.md`). Unknown bits are kept.
#[derive(Clone, Copy, PartialEq, Eq)]
pub struct CommandFlags(u16);

bitflag_items! {
    impl CommandFlags: u16 {
        const FUA = 1;
        const NO_HOLE = 2;
        const DF = 4;
        const REQ_ONE = 8;
    }
}

impl Flags for CommandFlags {
    type Bits = u16;

    ghost exact = { ⊤ };

    ghost table = { (codes "FUA", 1) ∷ (codes "NO_HOLE", 2) ∷ (codes "DF", 4) ∷ (codes "REQ_ONE", 8) ∷ [] };

    ghost set_of = { λ flags. flags.0 };

    fn flags<'a>() -> &'a [Flag<CommandFlags>] {
        CommandFlags::FLAGS
    }

    fn bits(&self) -> u16 {
        self.0
    }

    fn from_bits_retain(bits: u16) -> CommandFlags {
        CommandFlags(bits)
    }
}
