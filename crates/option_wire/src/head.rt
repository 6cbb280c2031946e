ghost use Rattle.std.specs.Prelude.{◌≡◌, ◌≢◌, ℕ, ◌<◌, take, IfOk, OnErr};
ghost use Rattle.option_wire.specs.Head.{option_head, option_magic};

use crate::error::Malformed;
use crate::handshake::OPTION_MAGIC;
use byteorder::{BigEndian, ByteOrder};

/// The 16 bytes before an option's data, without their magic number ("Option haggling" of NBD's `proto.md`).
#[derive(Clone, Copy, PartialEq, Eq)]
pub struct OptionHead {
    /// Which option it is, as [`crate::GO`], also one that no server knows.
    pub option: u32,
    /// How many bytes of data follow.
    pub length: u32,
}

/// Reads what stands before an option's data. Refusal 5 (malformed); it takes no memory.
#[tactic(auto, unfolding(crate::specs::Head::option_head))]
pub fn decode_option_head(bytes: &[u8; 16]) -> Result<OptionHead, Malformed>
    // It is the one head that the bytes are.
    ensures found { IfOk result (λ head. bytes.now ≡ option_head head.option head.length) }

    // No head's bytes are these.
    ensures magic { OnErr result (take 8 bytes.now ≢ option_magic) }
    ensures none { OnErr result ((option size : ℕ) → bytes.now ≢ option_head option size) }
{
    let (magic, numbers) = bytes.split_at(8);
    if BigEndian::read_u64(magic) != OPTION_MAGIC {
        return Err(Malformed);
    }
    let (option, length) = numbers.split_at(4);
    Ok(OptionHead {
        option: BigEndian::read_u32(option),
        length: BigEndian::read_u32(length),
    })
}
