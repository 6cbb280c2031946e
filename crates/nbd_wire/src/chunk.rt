ghost use Rattle.std.specs.Prelude.{◌≡◌, ◌+◌, ◌*◌, ◌≤◌, ◌<◌, ◌^◌, ◌++◌, true, length, vec_len, vec_capacity};
ghost use Rattle.std.specs.Int.{w64, to_be_bytes};
ghost use Rattle.std.specs.List.{flat_map};
ghost use Rattle.nbd_wire.specs.Errno.{errno_number};
ghost use Rattle.nbd_wire.specs.Chunk.{block_status, chunk_bytes, chunk_head, error, offset_data, offset_hole, run_bytes};

use crate::error::Errno;
use crate::message::Run;
use byteorder::{BigEndian, ByteOrder};

const CHUNK_MAGIC: u32 = 0x668e_33ef;

const DONE: u16 = 1;

// The types of chunks.
const OFFSET_DATA: u16 = 1;

const OFFSET_HOLE: u16 = 2;

const BLOCK_STATUS: u16 = 5;

const ERROR: u16 = 0x8001;

// The metadata context `base:allocation`, as the handshake calls it.
const CONTEXT: u32 = 1;

// How many bytes a chunk takes, before the data and the runs that it carries.
pub const DATA_HEAD_LEN: usize = 28;

pub const HOLE_LEN: usize = 32;

pub const STATUS_HEAD_LEN: usize = 24;

pub const RUN_LEN: usize = 8;

pub const ERROR_LEN: usize = 26;

// The head of a chunk, with the length of its payload.
#[tactic(auto, unfolding(crate::specs::Chunk::chunk_head))]
fn encode_head(done: bool, kind: u16, cookie: u64, size: u32) -> [u8; 20]
    ensures { result ≡ chunk_head done kind cookie size }
{
    let mut bytes = [0; 20];
    BigEndian::write_u32(&mut bytes[0..4], CHUNK_MAGIC);
    BigEndian::write_u16(&mut bytes[4..6], if done { DONE } else { 0 });
    BigEndian::write_u16(&mut bytes[6..8], kind);
    BigEndian::write_u64(&mut bytes[8..16], cookie);
    BigEndian::write_u32(&mut bytes[16..20], size);
    bytes
}

/// Appends bytes for which there is room.
pub fn put(out: &mut Vec<u8>, bytes: &[u8])
    requires { vec_len out.old + length bytes.now ≤ vec_capacity out.old }
    ensures items { out.new.items ≡ out.old.items ++ bytes.now }
    ensures len { vec_len out.new ≡ vec_len out.old + length bytes.now }
    ensures room { vec_capacity out.old ≤ vec_capacity out.new }
{
    out.extend_from_slice(bytes).unwrap();
}

/// Appends the head of a chunk with `size` bytes of data, for which there is room.
pub fn put_data_head(out: &mut Vec<u8>, done: bool, cookie: u64, offset: u64, size: usize)
    requires room { vec_len out.old + DATA_HEAD_LEN ≤ vec_capacity out.old }
    requires fits { 8 + size < 2 ^ 32 }
    ensures items { out.new.items ≡ out.old.items ++ (chunk_head done 1 cookie (8 + size) ++ to_be_bytes w64 offset) }
    ensures len { vec_len out.new ≡ vec_len out.old + DATA_HEAD_LEN }
    ensures room { vec_capacity out.old ≤ vec_capacity out.new }
{
    put(
        out,
        &encode_head(done, OFFSET_DATA, cookie, 8 + size as u32),
    );
    put(out, &offset.to_be_bytes());
}

/// Appends the chunk with these data, for which there is room.
pub fn put_data(out: &mut Vec<u8>, done: bool, cookie: u64, offset: u64, bytes: &[u8])
    requires room { vec_len out.old + DATA_HEAD_LEN + length bytes.now ≤ vec_capacity out.old }
    requires fits { 8 + length bytes.now < 2 ^ 32 }
    ensures items { out.new.items ≡ out.old.items ++ chunk_bytes done cookie (offset_data offset bytes.now) }
    ensures len { vec_len out.new ≡ vec_len out.old + DATA_HEAD_LEN + length bytes.now }
    ensures room { vec_capacity out.old ≤ vec_capacity out.new }
{
    put_data_head(out, done, cookie, offset, bytes.len());
    put(out, bytes);
}

/// Appends the chunk on a hole, for which there is room.
pub fn put_hole(out: &mut Vec<u8>, done: bool, cookie: u64, offset: u64, size: u32)
    requires { vec_len out.old + HOLE_LEN ≤ vec_capacity out.old }
    ensures items { out.new.items ≡ out.old.items ++ chunk_bytes done cookie (offset_hole offset size) }
    ensures len { vec_len out.new ≡ vec_len out.old + HOLE_LEN }
    ensures room { vec_capacity out.old ≤ vec_capacity out.new }
{
    put(out, &encode_head(done, OFFSET_HOLE, cookie, 12));
    put(out, &offset.to_be_bytes());
    put(out, &size.to_be_bytes());
}

/// Appends the one chunk of an error, for which there is room.
pub fn put_error(out: &mut Vec<u8>, cookie: u64, errno: Errno)
    requires { vec_len out.old + ERROR_LEN ≤ vec_capacity out.old }
    ensures { out.new.items ≡ out.old.items ++ chunk_bytes true cookie (error (errno_number errno)) }
{
    put(out, &encode_head(true, ERROR, cookie, 6));
    put(out, &errno.number().to_be_bytes());
    // The length of the message.
    put(out, &0u16.to_be_bytes());
}

/// Appends the one chunk with these states, for which there is room.
pub fn put_states(out: &mut Vec<u8>, cookie: u64, runs: &[Run])
    requires room { vec_len out.old + STATUS_HEAD_LEN + RUN_LEN * length runs.now ≤ vec_capacity out.old }
    requires fits { length runs.now ≤ 1024 }
    ensures { out.new.items ≡ out.old.items ++ chunk_bytes true cookie (block_status runs.now) }
{
    let size = 4 + 8 * runs.len() as u32;
    put(out, &encode_head(true, BLOCK_STATUS, cookie, size));
    put(out, &CONTEXT.to_be_bytes());
    put_runs(out, runs);
}

fn put_runs(out: &mut Vec<u8>, runs: &[Run])
    requires { vec_len out.old + RUN_LEN * length runs.now ≤ vec_capacity out.old }
    ensures { out.new.items ≡ out.old.items ++ flat_map run_bytes runs.now }
{
    for run in runs {
        put(out, &run.length.to_be_bytes());
        put(out, &run.status.to_be_bytes());
    }
}
