ghost use Rattle.std.specs.Prelude.{◌≡◌, ◌⊎◌, ◌↔◌, IsTrue, ⊤, [], ◌∷◌, codes};
ghost use Rattle.option_wire.specs.Handshake.{client_bits, client_flags_bytes, greeting_bytes, omits_zeroes};

use bitflags::{Flag, Flags, bitflag_items};
use byteorder::{BigEndian, ByteOrder};

const NBD_MAGIC: u64 = 0x4e42_444d_4147_4943;

/// What an option begins with, and after another number the server's greeting ("Fixed newstyle negotiation" of NBD's
/// `proto.md`). A reply to an option begins otherwise.
pub const OPTION_MAGIC: u64 = 0x4948_4156_454f_5054;

/// What the server offers in its greeting ("Handshake flags" of NBD's `proto.md`).
#[derive(Clone, Copy)]
pub struct HandshakeFlags(u16);

bitflag_items! {
    impl HandshakeFlags: u16 {
        const FIXED_NEWSTYLE = 1;
        const NO_ZEROES = 2;
    }
}

impl Flags for HandshakeFlags {
    type Bits = u16;

    ghost exact = { ⊤ };

    ghost table = { (codes "FIXED_NEWSTYLE", 1) ∷ (codes "NO_ZEROES", 2) ∷ [] };

    ghost set_of = { λ flags. flags.0 };

    fn flags<'a>() -> &'a [Flag<HandshakeFlags>] {
        HandshakeFlags::FLAGS
    }

    fn bits(&self) -> u16 {
        self.0
    }

    fn from_bits_retain(bits: u16) -> HandshakeFlags {
        HandshakeFlags(bits)
    }
}

/// What the client takes of it ("Client flags" of NBD's `proto.md`). Unknown bits are kept.
#[derive(Clone, Copy, PartialEq, Eq)]
pub struct ClientFlags(u32);

bitflag_items! {
    impl ClientFlags: u32 {
        const FIXED_NEWSTYLE = 1;
        const NO_ZEROES = 2;
    }
}

impl Flags for ClientFlags {
    type Bits = u32;

    ghost exact = { ⊤ };

    ghost table = { (codes "FIXED_NEWSTYLE", 1) ∷ (codes "NO_ZEROES", 2) ∷ [] };

    ghost set_of = { λ flags. flags.0 };

    fn flags<'a>() -> &'a [Flag<ClientFlags>] {
        ClientFlags::FLAGS
    }

    fn bits(&self) -> u32 {
        self.0
    }

    fn from_bits_retain(bits: u32) -> ClientFlags {
        ClientFlags(bits)
    }
}

impl ClientFlags {
    /// Whether a session goes on with them: the client speaks the fixed newstyle handshake, and sets no flag
    /// that the greeting doesn't offer.
    pub fn is_accepted(self) -> bool
        ensures { IsTrue result ↔ ((client_bits self ≡ 1) ⊎ (client_bits self ≡ 3)) }
    {
        self == ClientFlags::FIXED_NEWSTYLE
            || self == ClientFlags::FIXED_NEWSTYLE.union(ClientFlags::NO_ZEROES)
    }

    /// Whether the client takes no zeroes after the answer to an EXPORT_NAME, as the greeting offers it.
    pub fn omits_zeroes(self) -> bool
        ensures { result ≡ omits_zeroes self }
    {
        self.bits() & ClientFlags::NO_ZEROES.bits() != 0
    }
}

/// The first 18 bytes of a session, which the server sends ("Newstyle negotiation" of NBD's `proto.md`).
pub fn greeting() -> [u8; 18]
    ensures { result ≡ greeting_bytes }
{
    let flags = HandshakeFlags::FIXED_NEWSTYLE.union(HandshakeFlags::NO_ZEROES);
    let mut bytes = [0; 18];
    BigEndian::write_u64(&mut bytes[0..8], NBD_MAGIC);
    BigEndian::write_u64(&mut bytes[8..16], OPTION_MAGIC);
    BigEndian::write_u16(&mut bytes[16..18], flags.bits());
    bytes
}

/// Reads the client's answer to the greeting: any 4 bytes are one.
pub fn decode_client_flags(bytes: &[u8; 4]) -> ClientFlags
    ensures { bytes.now ≡ client_flags_bytes result }
{
    ClientFlags(BigEndian::read_u32(bytes))
}
