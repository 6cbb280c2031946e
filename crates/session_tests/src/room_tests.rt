use crate::export::{serve, serve_over};
use crate::fakes::{FakeReader, FakeWriter};
use crate::interrupted::Interrupted;
use crate::row::bytes_of;
use nbd_wire::{RequestHead, StreamReader, WRITE, encode_request};
use negotiation::End;
use std::alloc::{AllocError, Global};
use std::process::Abort;
use std::test::Fail;

const MANY: usize = 100_000_000;

// What is written for a client that goes to transmission at once.
const HANDSHAKE: &str = "4e42444d41474943 49484156454f5054 0003
     0003e889045565a9 00000007 00000003 0000000c 0000 0000000000010000 016d
     0003e889045565a9 00000007 00000003 0000000e 0003 00000001 00001000 00100000
     0003e889045565a9 00000007 00000001 00000000";

// Such a client, which sends a WRITE of 1 MiB, a FLUSH and a DISC. The data begin after 56 bytes.
fn input(alloc: Global) -> Result<Vec<u8>, AllocError> {
    let mut input = bytes_of(
        alloc,
        "00000003 49484156454f5054 00000007 00000008 00000000 0001 0003
         25609513 0000 0001 0000000000000003 0000000000000000 00100000",
    )?;
    input.extend_from_slice(&vec![in alloc; 0x25; 1_048_576]?)?;
    input.extend_from_slice(&bytes_of(
        alloc,
        "25609513 0000 0003 0000000000000005 0000000000000000 00000000
         25609513 0000 0002 0000000000000007 0000000000000000 00000000",
    )?)?;
    Ok(input)
}

fn output(alloc: Global) -> Result<Vec<u8>, AllocError> {
    let mut output = bytes_of(alloc, HANDSHAKE)?;
    output.extend_from_slice(&bytes_of(
        alloc,
        "67446698 00000000 0000000000000003 67446698 00000000 0000000000000005",
    )?)?;
    Ok(output)
}

#[test]
fn a_long_write_is_served_in_any_pieces(rt: HostRuntime) -> Result<(), Fail> {
    let alloc = rt.alloc();
    let input = input(alloc)?;
    let wanted = output(alloc)?;
    for step in [MANY, 100_000, 65_536, 65_537, 65_508, 4_099] {
        let reader = FakeReader::new(&input, step, true);
        let served = serve(alloc, reader, FakeWriter::new(alloc, MANY, MANY))?;
        assert!(rt; served.end == Ok(()) && served.answered == 2, "{step}");
        assert!(rt; served.output.taken() == wanted.as_slice(), "{step}");
    }
    Ok(())
}

#[test]
fn a_long_write_that_is_interrupted_is_read_on(rt: HostRuntime) -> Result<(), Fail> {
    let alloc = rt.alloc();
    let input = input(alloc)?;
    let mut reader = Interrupted::new(FakeReader::new(&input, MANY, true));
    let mut writer = FakeWriter::new(alloc, MANY, MANY);
    let (end, answered) = serve_over(alloc, &mut reader, &mut writer)?;
    assert!(rt; end == Ok(()) && answered == 2);
    assert!(rt; writer.taken() == output(alloc)?.as_slice());
    Ok(())
}

// The input ends after this many bytes, or fails there.
fn is_cut(rt: &impl Abort, alloc: Global, cut: usize, fails: bool) -> Result<(), Fail> {
    let wanted = if fails { End::IoFault } else { End::PeerClosed };
    let input = input(alloc)?;
    let (first, _) = input.split_at(cut.min(input.len()));
    let reader = FakeReader::new(first, MANY, fails);
    let served = serve(alloc, reader, FakeWriter::new(alloc, MANY, MANY))?;
    assert!(rt; served.end == Err(wanted) && served.answered == 0, "{cut}");
    assert!(rt;
        served.output.taken() == bytes_of(alloc, HANDSHAKE)?.as_slice(),
        "{cut}"
    );
    Ok(())
}

#[test]
fn a_long_write_that_is_cut_is_not_served(rt: HostRuntime) -> Result<(), Fail> {
    // Within the first piece, after it, in the room that is lent, and before the last byte.
    for cut in [56, 65_536, 65_537, 600_000, 1_048_631] {
        is_cut(&rt, rt.alloc(), cut, false)?;
        is_cut(&rt, rt.alloc(), cut, true)?;
    }
    Ok(())
}

// Reads into the room of the data as long as there is some.
fn fill(reader: &mut StreamReader, rest: &mut &[u8]) -> Result<(), Fail> {
    for _ in 0..100 {
        if reader.room() <= 1 {
            break;
        }
        reader.fill(rest)?;
    }
    Ok(())
}

#[test]
fn data_that_are_read_into_their_room_are_those_of_the_stream(rt: HostRuntime) -> Result<(), Fail> {
    let alloc = rt.alloc();
    let mut sent = Vec::new(alloc);
    for place in 0..300_000u32 {
        sent.push((place % 251) as u8)?;
    }
    let head = RequestHead {
        flags: 0,
        kind: WRITE,
        cookie: 9,
        offset: 0,
        length: 300_000,
    };
    let mut reader = StreamReader::new(alloc);
    assert!(rt; reader.room() == 0);
    assert!(rt; reader.feed(&encode_request(&head), &())?.is_empty());
    let mut rest = sent.as_slice();
    fill(&mut reader, &mut rest)?;
    assert!(rt; reader.room() == 1 && rest.len() == 1);
    let requests = reader.feed(rest, &())?;
    assert!(rt; requests.len() == 1);
    assert!(rt;
        requests
            .iter()
            .all(|request| request.bytes() == sent.as_slice())
    );
    Ok(())
}
