ghost use Rattle.std.specs.Prelude.{◌≡◌, if◌then◌else◌, ⊤, [], ◌∷◌, codes};

use bitflags::{Flag, Flags, bitflag_items};

/// What an export does, as the handshake tells it ("Transmission flags" of NBD's `proto.md`). Unknown bits are
/// kept.
#[derive(Clone, Copy, PartialEq, Eq)]
pub struct TransmissionFlags(u16);

bitflag_items! {
    impl TransmissionFlags: u16 {
        const HAS_FLAGS = 1;
        const SEND_FLUSH = 4;
        const SEND_FUA = 8;
        const SEND_TRIM = 32;
        const SEND_WRITE_ZEROES = 64;
        const SEND_DF = 128;
        const CAN_MULTI_CONN = 256;
    }
}

impl Flags for TransmissionFlags {
    type Bits = u16;

    ghost exact = { ⊤ };

    ghost table = { (codes "HAS_FLAGS", 1) ∷ (codes "SEND_FLUSH", 4) ∷ (codes "SEND_FUA", 8) ∷ (codes "SEND_TRIM", 32) ∷ (codes "SEND_WRITE_ZEROES", 64) ∷ (codes "SEND_DF", 128) ∷ (codes "CAN_MULTI_CONN", 256) ∷ [] };

    ghost set_of = { λ flags. flags.0 };

    fn flags<'a>() -> &'a [Flag<TransmissionFlags>] {
        TransmissionFlags::FLAGS
    }

    fn bits(&self) -> u16 {
        self.0
    }

    fn from_bits_retain(bits: u16) -> TransmissionFlags {
        TransmissionFlags(bits)
    }
}

/// The flags of the export: a READ may ask for one chunk if structured replies were agreed on, and all connections see the same
/// image. FLUSH and FUA are offered if they make something durable; a FLUSH on one connection then covers all of them.
pub fn transmission_flags(structured: bool, flushes: bool) -> u16
    ensures { result ≡ (if flushes then (if structured then 0x01ed else 0x016d) else (if structured then 0x01e1 else 0x0161)) }
{
    let mut flags = TransmissionFlags::HAS_FLAGS
        .union(TransmissionFlags::SEND_TRIM)
        .union(TransmissionFlags::SEND_WRITE_ZEROES)
        .union(TransmissionFlags::CAN_MULTI_CONN);
    if flushes {
        flags = flags
            .union(TransmissionFlags::SEND_FLUSH)
            .union(TransmissionFlags::SEND_FUA);
    }
    if structured {
        flags = flags.union(TransmissionFlags::SEND_DF);
    }
    flags.bits()
}
