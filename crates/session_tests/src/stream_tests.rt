use crate::export::{serve, serve_over};
use crate::failing::FailsOnce;
use crate::fakes::{FakeReader, FakeWriter};
use crate::interrupted::Interrupted;
use crate::row::bytes_of;
use negotiation::End;
use std::alloc::{AllocError, Global};
use std::io::Read;
use std::process::Abort;
use std::test::Fail;

const MANY: usize = 100_000_000;

// A whole session: structured replies, an INFO without the sizes of blocks, GO, a READ, a FLUSH, a TRIM, DISC.
fn input(alloc: Global) -> Result<Vec<u8>, AllocError> {
    bytes_of(
        alloc,
        "00000003
         49484156454f5054 00000008 00000000
         49484156454f5054 00000006 00000006 00000000 0000
         49484156454f5054 00000007 00000008 00000000 0001 0003
         25609513 0000 0000 0000000000000002 0000000000000000 00000002
         25609513 0000 0003 0000000000000003 0000000000000000 00000000
         25609513 0000 0004 0000000000000005 0000000000000000 00001000
         25609513 0000 0002 0000000000000004 0000000000000000 00000000",
    )
}

fn output(alloc: Global) -> Result<Vec<u8>, AllocError> {
    bytes_of(
        alloc,
        "4e42444d41474943 49484156454f5054 0003
         0003e889045565a9 00000008 00000001 00000000
         0003e889045565a9 00000006 00000003 0000000c 0000 0000000000010000 01ed
         0003e889045565a9 00000006 00000001 00000000
         0003e889045565a9 00000007 00000003 0000000c 0000 0000000000010000 01ed
         0003e889045565a9 00000007 00000003 0000000e 0003 00000001 00001000 00100000
         0003e889045565a9 00000007 00000001 00000000
         668e33ef 0001 0001 0000000000000002 0000000a 0000000000000000 4141
         67446698 00000000 0000000000000003
         67446698 00000000 0000000000000005",
    )
}

// The end of each message of the input, and how many bytes of the output are due by then.
const DUE: [(usize, usize); 8] = [
    (0, 18),
    (20, 38),
    (42, 90),
    (66, 176),
    (94, 206),
    (122, 222),
    (150, 238),
    (178, 238),
];

// How much of the output is due once so much of the input was read.
fn due_at(count: usize) -> usize {
    let mut due = 0;
    for (end, len) in DUE {
        if end <= count {
            due = len;
        }
    }
    due
}

// The session is served to its end, however long its pieces are.
fn is_whole(rt: &impl Abort, alloc: Global, step: usize, piece: usize) -> Result<(), Fail> {
    let input = input(alloc)?;
    let reader = FakeReader::new(&input, step, true);
    let served = serve(alloc, reader, FakeWriter::new(alloc, piece, MANY))?;
    assert!(rt; served.end == Ok(()), "{step} {piece}");
    assert!(rt; served.answered == 3, "{step} {piece}");
    assert!(rt;
        served.output.taken() == output(alloc)?.as_slice(),
        "{step} {piece}"
    );
    Ok(())
}

#[test]
fn a_whole_session_is_served_in_any_pieces(rt: HostRuntime) -> Result<(), Fail> {
    for step in 1..=178 {
        is_whole(&rt, rt.alloc(), step, MANY)?;
    }
    is_whole(&rt, rt.alloc(), 1, 1)?;
    is_whole(&rt, rt.alloc(), MANY, 1)
}

#[test]
fn a_call_that_is_interrupted_is_begun_again(rt: HostRuntime) -> Result<(), Fail> {
    let alloc = rt.alloc();
    let input = input(alloc)?;
    let mut reader = Interrupted::new(FakeReader::new(&input, 50, true));
    let mut writer = Interrupted::new(FakeWriter::new(alloc, 30, MANY));
    let (end, answered) = serve_over(alloc, &mut reader, &mut writer)?;
    assert!(rt; end == Ok(()) && answered == 3);
    assert!(rt; writer.stream.taken() == output(alloc)?.as_slice());
    Ok(())
}

// The input ends after this many bytes, or fails there: what was due for the messages before is written, and no more.
fn is_cut(rt: &impl Abort, alloc: Global, cut: usize, fails: bool) -> Result<(), Fail> {
    let wanted = if fails { End::IoFault } else { End::PeerClosed };
    let input = input(alloc)?;
    let (first, _) = input.split_at(cut.min(input.len()));
    let served = serve(
        alloc,
        FakeReader::new(first, MANY, fails),
        FakeWriter::new(alloc, MANY, MANY),
    )?;
    let taken = served.output.taken();
    assert!(rt; served.end == Err(wanted), "{cut}");
    assert!(rt;
        taken.len() == due_at(cut) && output(alloc)?.starts_with(taken),
        "{cut}"
    );
    Ok(())
}

#[test]
fn an_input_that_ends_or_fails_is_told(rt: HostRuntime) -> Result<(), Fail> {
    for cut in 0..178 {
        is_cut(&rt, rt.alloc(), cut, false)?;
        is_cut(&rt, rt.alloc(), cut, true)?;
    }
    Ok(())
}

// The writer has room for this many bytes.
fn is_narrow(rt: &impl Abort, alloc: Global, room: usize) -> Result<(), Fail> {
    let input = input(alloc)?;
    let served = serve(
        alloc,
        FakeReader::new(&input, MANY, false),
        FakeWriter::new(alloc, 7, room),
    )?;
    let taken = served.output.taken();
    assert!(rt; served.end == Err(End::IoFault), "{room}");
    assert!(rt;
        taken.len() == room && output(alloc)?.starts_with(taken),
        "{room}"
    );
    Ok(())
}

#[test]
fn a_write_that_fails_ends_a_session(rt: HostRuntime) -> Result<(), Fail> {
    for room in 0..238 {
        is_narrow(&rt, rt.alloc(), room)?;
    }
    Ok(())
}

// The read after this many of 7 bytes fails, and those after it would work: what was due by then is written, and no more,
// and nothing more is read.
fn is_over_at_read(rt: &impl Abort, alloc: Global, reads: usize) -> Result<(), Fail> {
    let input = input(alloc)?;
    let mut reader = FailsOnce::new(FakeReader::new(&input, 7, true), reads);
    let mut writer = FakeWriter::new(alloc, MANY, MANY);
    let (end, _) = serve_over(alloc, &mut reader, &mut writer)?;
    let taken = writer.taken();
    assert!(rt;
        end == Err(End::IoFault) && reader.calls_after() == 0,
        "{reads}"
    );
    assert!(rt;
        taken.len() == due_at(reads.saturating_mul(7)) && output(alloc)?.starts_with(taken),
        "{reads}"
    );
    Ok(())
}

#[test]
fn a_read_that_fails_once_ends_a_session(rt: HostRuntime) -> Result<(), Fail> {
    // 178 bytes are 26 reads.
    for reads in 0..26 {
        is_over_at_read(&rt, rt.alloc(), reads)?;
    }
    Ok(())
}

// The write after this many of 7 bytes at most fails, if there are this many, and those after it would work: nothing more is
// written. Whether it was met.
fn is_over_at_write(rt: &impl Abort, alloc: Global, writes: usize) -> Result<bool, Fail> {
    let input = input(alloc)?;
    let mut reader = FakeReader::new(&input, MANY, true);
    let mut writer = FailsOnce::new(FakeWriter::new(alloc, 7, MANY), writes);
    let (end, _) = serve_over(alloc, &mut reader, &mut writer)?;
    let wanted = if writer.failed() {
        Err(End::IoFault)
    } else {
        Ok(())
    };
    assert!(rt; end == wanted && writer.calls_after() == 0, "{writes}");
    assert!(rt;
        output(alloc)?.starts_with(writer.stream.taken()),
        "{writes}"
    );
    Ok(writer.failed())
}

#[test]
fn a_write_that_fails_once_ends_a_session(rt: HostRuntime) -> Result<(), Fail> {
    let alloc = rt.alloc();
    let mut met = 0usize;
    for writes in 0..60 {
        if is_over_at_write(&rt, alloc, writes)? {
            met = met.saturating_add(1);
        }
    }
    // 238 bytes are 34 writes at least, and some end with a reply.
    assert!(rt; met >= 34 && met < 60, "{met}");
    Ok(())
}

// A byte of the input is another: the session ends after what was due for the messages before it.
fn is_broken(rt: &impl Abort, alloc: Global, place: usize) -> Result<(), Fail> {
    let mut input = input(alloc)?;
    if let Some(byte) = input.get_mut(place) {
        *byte ^= 1;
    }
    let served = serve(
        alloc,
        FakeReader::new(&input, MANY, true),
        FakeWriter::new(alloc, MANY, MANY),
    )?;
    let taken = served.output.taken();
    assert!(rt; served.end == Err(End::ProtocolEnd), "{place}");
    assert!(rt;
        taken.len() == due_at(place) && output(alloc)?.starts_with(taken),
        "{place}"
    );
    Ok(())
}

#[test]
fn a_wrong_magic_ends_a_session(rt: HostRuntime) -> Result<(), Fail> {
    // Of an option eight bytes, of a request four.
    for (from, len) in [
        (4, 8),
        (20, 8),
        (42, 8),
        (66, 4),
        (94, 4),
        (122, 4),
        (150, 4),
    ] {
        for place in from..from + len {
            is_broken(&rt, rt.alloc(), place)?;
        }
    }
    Ok(())
}

// A client that sends this ends its session so, and what comes after it isn't read.
fn is_left(rt: &impl Abort, alloc: Global, row: &str, end: Result<(), End>) -> Result<(), Fail> {
    let first = bytes_of(alloc, row)?;
    let behind = [0x25; 100];
    let mut reader = first.as_slice().chain(behind.as_slice());
    let mut writer = FakeWriter::new(alloc, MANY, MANY);
    let (told, _) = serve_over(alloc, &mut reader, &mut writer)?;
    assert!(rt; told == end, "{row}");
    assert!(rt; reader.get_ref().1.len() == 100, "{row}");
    Ok(())
}

#[test]
fn nothing_is_read_behind_an_end(rt: HostRuntime) -> Result<(), Fail> {
    for (row, end) in [
        ("00000003 49484156454f5054 00000002 00000000", Ok(())),
        ("00000007", Err(End::ProtocolEnd)),
        (
            "00000003 49484156454f5054 00000001 00000001 61",
            Err(End::ProtocolEnd),
        ),
        (
            "00000003 49484156454f5054 00000007 00000008 00000000 0001 0003
             25609513 0000 0002 0000000000000001 0000000000000000 00000000",
            Ok(()),
        ),
        (
            "00000003 49484156454f5054 00000007 00000008 00000000 0001 0003
             25609513 0000 0001 0000000000000001 0000000000000000 02000001",
            Err(End::ProtocolEnd),
        ),
    ] {
        is_left(&rt, rt.alloc(), row, end)?;
    }
    Ok(())
}
