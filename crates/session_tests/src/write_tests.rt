use crate::export::serve;
use crate::fakes::{FakeReader, FakeWriter};
use crate::row::bytes_of;
use negotiation::End;
use std::alloc::{AllocError, Global};
use std::process::Abort;
use std::test::Fail;

const MANY: usize = 100_000_000;

// A client that goes to transmission at once, and then sends this.
fn begins(alloc: Global, requests: &str) -> Result<Vec<u8>, AllocError> {
    let mut input = bytes_of(
        alloc,
        "00000003 49484156454f5054 00000007 00000008 00000000 0001 0003",
    )?;
    input.extend_from_slice(&bytes_of(alloc, requests)?)?;
    Ok(input)
}

const DISC: &str = "25609513 0000 0002 0000000000000001 0000000000000000 00000000";

const HANDSHAKE: &str = "4e42444d41474943 49484156454f5054 0003
     0003e889045565a9 00000007 00000003 0000000c 0000 0000000000010000 016d
     0003e889045565a9 00000007 00000003 0000000e 0003 00000001 00001000 00100000
     0003e889045565a9 00000007 00000001 00000000";

// A session whose requests come together makes this many writes, the first two for the greeting and for the options.
fn has_writes(rt: &impl Abort, alloc: Global, requests: &str, writes: usize) -> Result<(), Fail> {
    let mut input = begins(alloc, requests)?;
    input.extend_from_slice(&bytes_of(alloc, DISC)?)?;
    let served = serve(
        alloc,
        FakeReader::new(&input, MANY, true),
        FakeWriter::new(alloc, MANY, MANY),
    )?;
    let count = served.output.writes();
    assert!(rt; served.end == Ok(()) && count == writes, "{count}");
    Ok(())
}

#[test]
fn replies_go_out_together(rt: HostRuntime) -> Result<(), Fail> {
    let alloc = rt.alloc();
    has_writes(&rt, alloc, "", 2)?;
    // FLUSHes whose answers don't wait.
    has_writes(
        &rt,
        alloc,
        "25609513 0000 0003 0000000000000003 0000000000000000 00000000
         25609513 0000 0003 0000000000000005 0000000000000000 00000000
         25609513 0000 0003 0000000000000007 0000000000000000 00000000",
        3,
    )?;
    // The second and the fourth may wait: what is due is written before each of them.
    has_writes(
        &rt,
        alloc,
        "25609513 0000 0003 0000000000000003 0000000000000000 00000000
         25609513 0000 0003 0000000000000004 0000000000000000 00000000
         25609513 0000 0003 0000000000000005 0000000000000000 00000000
         25609513 0000 0003 0000000000000006 0000000000000000 00000000",
        5,
    )
}

#[test]
fn replies_of_more_than_1_mib_are_written(rt: HostRuntime) -> Result<(), Fail> {
    // 16 replies with 65,535 bytes each take 240 bytes more than 1 MiB.
    let mut reads = String::new(rt.alloc());
    for _ in 0..17 {
        reads.push_str("25609513 0000 0000 0000000000000003 0000000000000000 0000ffff ")?;
    }
    has_writes(&rt, rt.alloc(), &reads, 4)
}

#[test]
fn long_data_are_written_behind_their_head(rt: HostRuntime) -> Result<(), Fail> {
    has_writes(
        &rt,
        rt.alloc(),
        "25609513 0000 0000 0000000000000003 0000000000000000 00100000
         25609513 0000 0000 0000000000000005 0000000000000000 00080000
         25609513 0000 0000 0000000000000007 0000000000000000 00010000
         25609513 0000 0000 0000000000000009 0000000000000000 00000001",
        9,
    )
}

// The reply to the first request can't be written, which is due before the second is served.
#[test]
fn nothing_is_served_behind_a_failed_write(rt: HostRuntime) -> Result<(), Fail> {
    let alloc = rt.alloc();
    let input = begins(
        alloc,
        "25609513 0000 0003 0000000000000003 0000000000000000 00000000
         25609513 0000 0003 0000000000000004 0000000000000000 00000000",
    )?;
    let wanted = bytes_of(alloc, HANDSHAKE)?;
    let output = FakeWriter::new(alloc, MANY, wanted.len());
    let served = serve(alloc, FakeReader::new(&input, MANY, true), output)?;
    assert!(rt; served.end == Err(End::IoFault) && served.answered == 1);
    assert!(rt; served.output.taken() == wanted.as_slice());
    Ok(())
}

// A client that sends a WRITE of 1,052,672 bytes, and then this.
fn writes_too_much(alloc: Global, then: &str) -> Result<Vec<u8>, AllocError> {
    let mut input = begins(
        alloc,
        "25609513 0000 0001 0000000000000008 0000000000000000 00101000",
    )?;
    input.extend_from_slice(&vec![in alloc; 0x25; 1_052_672]?)?;
    input.extend_from_slice(&bytes_of(alloc, then)?)?;
    Ok(input)
}

// It is answered EINVAL, and what comes after it ends the session so.
fn is_thrown_away(
    rt: &impl Abort,
    alloc: Global,
    then: &str,
    end: Result<(), End>,
) -> Result<(), Fail> {
    let input = writes_too_much(alloc, then)?;
    let reader = FakeReader::new(&input, MANY, true);
    let served = serve(alloc, reader, FakeWriter::new(alloc, MANY, MANY))?;
    let mut wanted = bytes_of(alloc, HANDSHAKE)?;
    wanted.extend_from_slice(&bytes_of(alloc, "67446698 00000016 0000000000000008")?)?;
    assert!(rt; served.end == end && served.answered == 0);
    assert!(rt; served.output.taken() == wanted.as_slice());
    Ok(())
}

#[test]
fn a_write_that_is_thrown_away_is_not_handed_over(rt: HostRuntime) -> Result<(), Fail> {
    is_thrown_away(&rt, rt.alloc(), DISC, Ok(()))?;
    // A WRITE that is too long to be read, of 33,554,433 bytes.
    is_thrown_away(
        &rt,
        rt.alloc(),
        "25609513 0000 0001 0000000000000009 0000000000000000 02000001",
        Err(End::ProtocolEnd),
    )
}

// A client that asks for each thing which takes memory: LIST, STRUCTURED_REPLY, SET_META_CONTEXT, GO, a WRITE, a READ and a
// FLUSH.
const ASKS: &str = "00000003
     49484156454f5054 00000003 00000000
     49484156454f5054 00000008 00000000
     49484156454f5054 0000000a 0000001b 00000000 00000001 0000000f 626173653a616c6c6f636174696f6e
     49484156454f5054 00000007 00000008 00000000 0001 0003
     25609513 0000 0001 0000000000000003 0000000000000000 00000004 01020304
     25609513 0000 0000 0000000000000007 0000000000000000 00000002
     25609513 0000 0003 0000000000000005 0000000000000000 00000000";

const TOLD: &str = "4e42444d41474943 49484156454f5054 0003
     0003e889045565a9 00000003 00000002 00000004 00000000
     0003e889045565a9 00000003 00000001 00000000
     0003e889045565a9 00000008 00000001 00000000
     0003e889045565a9 0000000a 00000004 00000013 00000001 626173653a616c6c6f636174696f6e
     0003e889045565a9 0000000a 00000001 00000000
     0003e889045565a9 00000007 00000003 0000000c 0000 0000000000010000 01ed
     0003e889045565a9 00000007 00000003 0000000e 0003 00000001 00001000 00100000
     0003e889045565a9 00000007 00000001 00000000
     67446698 00000000 0000000000000003";

// The reply to the READ: its bytes, or that the export had no memory for them.
const READ_BYTES: &str = "668e33ef 0001 0001 0000000000000007 0000000a 0000000000000000 4141";

const READ_REFUSED: &str = "668e33ef 0001 8001 0000000000000007 00000006 0000000c 0000";

const FLUSHED: &str = "67446698 00000000 0000000000000005";

// What is written where the READ is answered this.
fn told(alloc: Global, read: &str) -> Result<Vec<u8>, AllocError> {
    let mut text = bytes_of(alloc, TOLD)?;
    text.extend_from_slice(&bytes_of(alloc, read)?)?;
    text.extend_from_slice(&bytes_of(alloc, FLUSHED)?)?;
    Ok(text)
}

// How much may be written once this many requests were answered, by the text with the bytes of the READ.
fn most_told(whole: usize, answered: u64) -> usize {
    match answered {
        0 => whole.saturating_sub(16 + 30 + 16),
        1 => whole.saturating_sub(30 + 16),
        2 => whole.saturating_sub(16),
        _ => whole,
    }
}

// If memory is refused in the session, it ends so. What is written begins the dialog, with no byte of a reply to a
// request that wasn't answered.
#[test]
fn refused_memory_ends_a_session(rt: HostRuntime) -> Result<(), Fail> {
    let alloc = rt.alloc();
    let (wanted, refused) = (told(alloc, READ_BYTES)?, told(alloc, READ_REFUSED)?);
    let mut input = bytes_of(alloc, ASKS)?;
    input.extend_from_slice(&bytes_of(alloc, DISC)?)?;
    let output = FakeWriter::reserved(alloc, MANY, wanted.len())?;
    let served = serve(alloc, FakeReader::new(&input, 5, true), output)?;
    let taken = served.output.taken();
    assert!(rt; wanted.starts_with(taken) || refused.starts_with(taken));
    assert!(rt; taken.len() <= most_told(wanted.len(), served.answered));
    match served.end {
        Ok(()) => assert!(rt; taken == wanted.as_slice() || taken == refused.as_slice()),
        Err(end) => assert!(rt; end == End::NoMemory, "{end}"),
    }
    Ok(())
}
