ghost use Rattle.std.specs.Prelude.{⊤, true};

use crate::fakes::{FakeReader, FakeWriter};
use image_model::Geometry;
use nbd_wire::{
    Answer, BLOCK_STATUS, DataBuffers, Errno, READ, ReadBytes, Reply, Request, RequestHead,
    SessionFlags,
};
use negotiation::{End, OfferedName, Serve, serve_session};
use std::alloc::{AllocError, Global};
use std::io::{Read, Write};
use std::test::Fail;

/// An export of 16 blocks, which answers a READ with bytes 41, BLOCK_STATUS with EINVAL and all else with success. Requests
/// with even cookies may keep their caller waiting. Of a connection it keeps how many requests it answered.
#[derive(Drop)]
pub struct Counted<'a> {
    alloc: Global,
    geometry: Geometry,
    name: OfferedName<'a>,
}

impl<'a> DataBuffers for Counted<'a> {
    fn take(&self, _room: usize) -> Option<Vec<u8>> {
        None
    }
}

impl<'a> Serve<u64> for Counted<'a> {
    ghost allows = { λ _ _ _ _ _ _. ⊤ };

    ghost extent = { λ export. export.geometry };

    ghost name = { λ export. export.name.bytes.now };

    ghost flushes = { λ _. true };

    fn geometry(&self) -> Geometry {
        self.geometry
    }

    fn name(&self) -> OfferedName<'_> {
        self.name
    }

    fn flushes(&self) -> bool {
        true
    }

    fn may_wait(&self, head: &RequestHead) -> bool {
        head.cookie % 2 == 0
    }

    fn serve(&self, pass: &mut u64, request: Request, _flags: &SessionFlags) -> Reply {
        *pass = pass.wrapping_add(1);
        let head = request.head();
        let answer = match head.kind {
            READ => match read(self.alloc, head.length) {
                Ok(read) => Answer::Bytes(read),
                Err(_) => Answer::Refused(Errno::NoMemory),
            },
            BLOCK_STATUS => Answer::Refused(Errno::Invalid),
            _ => Answer::Done,
        };
        Reply {
            cookie: head.cookie,
            answer,
        }
    }
}

// What a READ of this many bytes is answered, 1 MiB at most.
fn read(alloc: Global, length: u32) -> Result<ReadBytes, AllocError> {
    let length = length.clamp(1, 1_048_576);
    ReadBytes::data(alloc, 0, vec![in alloc; 0x41; length as usize]?)
}

/// How a session over such an export ended.
pub struct Served {
    pub end: Result<(), End>,
    pub answered: u64,
    pub output: FakeWriter,
}

// Written out, it is proved once, and not again in each function that lets such a value go.
impl Drop for Served {
    fn drop(self) {
        let Served {
            end: _,
            answered: _,
            output: _,
        } = self;
    }
}

/// Serves what this reader gives.
pub fn serve(
    alloc: Global,
    mut input: FakeReader<'_>,
    mut output: FakeWriter,
) -> Result<Served, Fail> {
    let (end, answered) = serve_over(alloc, &mut input, &mut output)?;
    Ok(Served {
        end,
        answered,
        output,
    })
}

/// Serves a session over these streams, and gives how it ended and how many requests were answered.
pub fn serve_over<R: Read, W: Write>(
    alloc: Global,
    input: &mut R,
    output: &mut W,
) -> Result<(Result<(), End>, u64), Fail> {
    let geometry = Geometry::new(16, 2_097_152).ok_or("no geometry")?;
    let name = OfferedName::new(b"").ok_or("no name")?;
    let export = Counted {
        alloc,
        geometry,
        name,
    };
    let mut answered = 0;
    let end = serve_session(alloc, input, output, &export, &mut answered);
    Ok((end, answered))
}
