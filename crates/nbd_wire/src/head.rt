ghost use Rattle.std.specs.Prelude.{◌≡◌, ◌≢◌, ℕ, List, ◌++◌, take, IfOk, OnErr};
ghost use Rattle.nbd_wire.specs.Head.{request_magic, head_bytes, IsHead, simple_reply};

use crate::error::BadMagic;
use byteorder::{BigEndian, ByteOrder};

const REQUEST_MAGIC: u32 = 0x2560_9513;

const SIMPLE_REPLY_MAGIC: u32 = 0x6744_6698;

/// The first 28 bytes of a request, without their magic number ("Request message" of NBD's `proto.md`).
#[derive(Clone, Copy)]
pub struct RequestHead {
    /// The command flags, each bit as it was sent.
    pub flags: u16,
    /// The type of the request, as [`crate::WRITE`], also one that no server knows.
    pub kind: u16,
    /// What the client calls the request; its reply carries it again.
    pub cookie: u64,
    /// The start of the range, in bytes.
    pub offset: u64,
    /// The length of the range, in bytes; as many bytes of data follow a WRITE's head.
    pub length: u32,
}

/// Reads a request's head. Refusal 3 (bad magic); it takes no memory.
pub fn decode_request(bytes: &[u8; 28]) -> Result<RequestHead, BadMagic>
    // It is the one head that the bytes are.
    ensures found { IfOk result (λ head. bytes.now ≡ head_bytes head) }
    ensures fits { IfOk result IsHead }

    // No head's bytes are these.
    ensures magic { OnErr result (take 4 bytes.now ≢ request_magic) }
    ensures none { OnErr result ((head : RequestHead) → bytes.now ≢ head_bytes head) }
{
    if BigEndian::read_u32(&bytes[0..4]) != REQUEST_MAGIC {
        return Err(BadMagic);
    }
    Ok(RequestHead {
        flags: BigEndian::read_u16(&bytes[4..6]),
        kind: BigEndian::read_u16(&bytes[6..8]),
        cookie: BigEndian::read_u64(&bytes[8..16]),
        offset: BigEndian::read_u64(&bytes[16..24]),
        length: BigEndian::read_u32(&bytes[24..28]),
    })
}

/// Writes a request's head. A server only decodes heads; this is for clients, for instance the tests.
#[tactic(auto, unfolding(crate::specs::Head::head_bytes))]
pub fn encode_request(head: &RequestHead) -> [u8; 28]
    ensures { result ≡ head_bytes head.now }
{
    let mut bytes = [0; 28];
    BigEndian::write_u32(&mut bytes[0..4], REQUEST_MAGIC);
    BigEndian::write_u16(&mut bytes[4..6], head.flags);
    BigEndian::write_u16(&mut bytes[6..8], head.kind);
    BigEndian::write_u64(&mut bytes[8..16], head.cookie);
    BigEndian::write_u64(&mut bytes[16..24], head.offset);
    BigEndian::write_u32(&mut bytes[24..28], head.length);
    bytes
}

/// Writes a simple reply ("Simple reply message" of NBD's `proto.md`), with `error` 0 for success. After the
/// one to a READ that succeeded the data follow.
pub fn encode_simple(error: u32, cookie: u64) -> [u8; 16]
    ensures { (bytes : List ℕ) → result ++ bytes ≡ simple_reply error cookie bytes }
{
    let mut bytes = [0; 16];
    BigEndian::write_u32(&mut bytes[0..4], SIMPLE_REPLY_MAGIC);
    BigEndian::write_u32(&mut bytes[4..8], error);
    BigEndian::write_u64(&mut bytes[8..16], cookie);
    bytes
}
