//! Devices, requests, and what they are answered.
ghost use Rattle.std.specs.Prelude.{◌≡◌, ◌≢◌, ◌*◌, ◌<◌, ◌^◌, IfOk, IfSome, vec_len};

use checkpoint::Keeper;
use disk_model::{Disk, SimDisk};
use export::{ClientPass, Export, ExportName, OpenDevice, ReadUnlocked};
use image_model::Geometry;
use nbd_wire::{Answer, FLUSH, READ, Request, RequestHead, SessionFlags, TRIM, WRITE};
use std::alloc::{AllocError, Global};
use std::rt::Clock;
use std::sync::Wait;

const PLAIN: SessionFlags = SessionFlags {
    structured: false,
    context: false,
};

// A formatted device, all holes.
pub fn formatted(alloc: Global, blocks: u64, area: u32) -> Option<SimDisk> {
    let geometry = Geometry::new(blocks, area)?;
    let mut disk = SimDisk::new(alloc, geometry.device_bytes()).ok()?;
    Keeper::format(alloc, &mut disk, geometry).ok()?;
    Some(disk)
}

// A device over holes that was opened.
pub fn fresh(alloc: Global, blocks: u64, area: u32) -> Option<OpenDevice<SimDisk, ()>> {
    OpenDevice::open(alloc, formatted(alloc, blocks, area)?, None).ok()
}

// A byte of a block in a round, which differs from place to place, from block to block and from round to round. In round 0
// it is zero.
fn byte_at(block: u64, round: u64, place: usize) -> u8 {
    if round == 0 {
        return 0;
    }
    let mixed = block
        .wrapping_mul(0x9e37_79b9_7f4a_7c15)
        .wrapping_add(round.wrapping_mul(0x94d0_49bb_1331_11eb))
        .wrapping_add((place as u64).wrapping_mul(0xbf58_476d_1ce4_e5b9));
    (mixed >> 56) as u8
}

// The bytes of a block in a round.
fn bytes_of(alloc: Global, block: u64, round: u64) -> Result<Vec<u8>, AllocError>
    ensures { IfOk result (λ bytes. vec_len bytes ≡ 4096) }
{
    let mut bytes = vec![in alloc; 0; 4096]?;
    for place in 0..bytes.len() {
        bytes[place] = byte_at(block, round, place);
    }
    Ok(bytes)
}

// A WRITE of one block.
fn write_of(alloc: Global, block: u64, round: u64) -> Option<Request>
    requires { block < 2 ^ 24 }
    ensures { IfSome result (λ request. request.head.kind ≢ 2) }
{
    let bytes = bytes_of(alloc, block, round).ok()?;
    Some(Request::new(
        RequestHead {
            flags: 0,
            kind: WRITE,
            cookie: block,
            offset: 4096 * block,
            length: 4096,
        },
        bytes,
    ))
}

// A TRIM of one block.
fn trim_of(alloc: Global, block: u64) -> Request
    requires { block < 2 ^ 24 }
    ensures { result.head.kind ≢ 2 }
{
    Request::new(
        RequestHead {
            flags: 0,
            kind: TRIM,
            cookie: block,
            offset: 4096 * block,
            length: 4096,
        },
        Vec::new(alloc),
    )
}

// A READ of one block.
fn read_of(alloc: Global, block: u64) -> Request
    requires { block < 2 ^ 24 }
    ensures { result.head.kind ≢ 2 }
{
    Request::new(
        RequestHead {
            flags: 0,
            kind: READ,
            cookie: block,
            offset: 4096 * block,
            length: 4096,
        },
        Vec::new(alloc),
    )
}

// A FLUSH.
fn flush_of(alloc: Global) -> Request
    ensures { result.head.kind ≢ 2 }
{
    Request::new(
        RequestHead {
            flags: 0,
            kind: FLUSH,
            cookie: 99,
            offset: 0,
            length: 0,
        },
        Vec::new(alloc),
    )
}

// Whether an answer is Done.
fn is_done(answer: &Answer) -> bool {
    match answer {
        Answer::Done => true,
        Answer::Refused(_) | Answer::Bytes(_) | Answer::States(_) => false,
    }
}

// Writes a block; whether it was answered Ok.
pub fn write_block<B: ExportName, D: Disk, H: ReadUnlocked, R: Wait + Clock>(
    rt: &R,
    alloc: Global,
    export: &Export<B, D, H>,
    pass: &mut ClientPass<B>,
    block: u64,
    round: u64,
) -> bool
    requires { block < 2 ^ 24 }
{
    let Some(request) = write_of(alloc, block, round) else {
        return false;
    };
    is_done(&export.submit(rt, &mut (), pass, request, &PLAIN).answer)
}

// Trims a block; whether it was answered Ok.
pub fn trim_block<B: ExportName, D: Disk, H: ReadUnlocked, R: Wait + Clock>(
    rt: &R,
    alloc: Global,
    export: &Export<B, D, H>,
    pass: &mut ClientPass<B>,
    block: u64,
) -> bool
    requires { block < 2 ^ 24 }
{
    is_done(
        &export
            .submit(rt, &mut (), pass, trim_of(alloc, block), &PLAIN)
            .answer,
    )
}

// Flushes; whether it was answered Ok.
pub fn flush<B: ExportName, D: Disk, H: ReadUnlocked, R: Wait + Clock>(
    rt: &R,
    alloc: Global,
    export: &Export<B, D, H>,
    pass: &mut ClientPass<B>,
) -> bool {
    is_done(
        &export
            .submit(rt, &mut (), pass, flush_of(alloc), &PLAIN)
            .answer,
    )
}

// Whether these are the bytes of a block in a round.
fn are_bytes(block: u64, round: u64, bytes: &[u8]) -> bool {
    for place in 0..bytes.len() {
        if bytes[place] != byte_at(block, round, place) {
            return false;
        }
    }
    bytes.len() == 4096
}

// Whether a READ of a block gives its bytes of a round.
pub fn reads_back<B: ExportName, D: Disk, H: ReadUnlocked, R: Wait + Clock>(
    rt: &R,
    alloc: Global,
    export: &Export<B, D, H>,
    pass: &mut ClientPass<B>,
    block: u64,
    round: u64,
) -> bool
    requires { block < 2 ^ 24 }
{
    match export
        .submit(rt, &mut (), pass, read_of(alloc, block), &PLAIN)
        .answer
    {
        Answer::Bytes(read) => are_bytes(block, round, read.bytes()),
        _ => false,
    }
}

// Whether the image of an opened device has a block's bytes of a round from the first to the last.
pub fn has_block<D: Disk>(keeper: &mut Keeper<D>, block: u64, first: u64, last: u64) -> bool {
    if block >= keeper.geometry().blocks {
        return false;
    }
    let mut into = [0; 4096];
    let Ok(()) = keeper.read_base(block, &mut into) else {
        return false;
    };
    for round in first..last.saturating_add(1) {
        if are_bytes(block, round, &into) {
            return true;
        }
    }
    false
}
