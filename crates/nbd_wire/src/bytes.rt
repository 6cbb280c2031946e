ghost use Rattle.std.specs.Prelude.{◌≤◌, ◌<◌, ◌≡◌, length, vec_len, IfOk, OnErr, OnOk};
ghost use Rattle.std.specs.Io.KnownBytes.{Keeps, ReadConsumes, WriteAppends};
ghost use Rattle.nbd_wire.specs.Writes.{WritesPart};

use std::io::{ErrorKind, Read, Write};
use thiserror::Error;

/// Refusal 21 (stream fault): a read or a write failed.
#[derive(Clone, Copy, Debug, PartialEq, Eq, Error)]
#[error("stream fault")]
pub struct StreamFault;

/// Reads what there is, at the end of the input nothing. A read that was interrupted is begun again. Refusal 21 (stream fault).
pub fn read_some<R: Read>(input: &mut R, piece: &mut Vec<u8>) -> Result<usize, StreamFault>
    ensures within { IfOk result (λ count. count ≤ vec_len piece.new) }
    ensures same { vec_len piece.new ≡ vec_len piece.old }
    ensures bytes { ReadConsumes (R.remaining input.old) (R.remaining input.new) result piece.new.items }
{
    for _ in 0..u64::MAX {
        match input.read(piece) {
            Ok(count) => return Ok(count),
            Err(error) if error.kind() == ErrorKind::Interrupted => {}
            Err(_) => break,
        }
    }
    Err(StreamFault)
}

/// Writes all of the bytes and hands them on; after a fault, refusal 21 (stream fault), the first of them may be written, and none
/// twice.
pub fn write_whole<W: Write>(output: &mut W, bytes: &[u8]) -> Result<(), StreamFault>
    ensures { WritesPart (W.contents output.old) (W.contents output.new) bytes.now result }
{
    write_unflushed(output, bytes)?;
    output.flush().map_err(|_| StreamFault)
}

/// Writes all of the bytes and doesn't hand them on: others follow at once. It fails as `write_whole` does.
pub fn write_unflushed<W: Write>(output: &mut W, bytes: &[u8]) -> Result<(), StreamFault>
    ensures { WritesPart (W.contents output.old) (W.contents output.new) bytes.now result }
{
    let mut rest = bytes;
    while !rest.is_empty() {
        let count = write_some(output, rest)?;
        let (_written, behind) = rest.split_at(count);
        rest = behind;
    }
    Ok(())
}

// Writes the first of the bytes, one at least.
fn write_some<W: Write>(output: &mut W, bytes: &[u8]) -> Result<usize, StreamFault>
    ensures some { IfOk result (λ count. (0 < count) × (count ≤ length bytes.now)) }
    ensures written { OnOk result (WriteAppends (W.contents output.old) (W.contents output.new) result bytes.now) }
    ensures none { OnErr result (Keeps (W.contents output.old) (W.contents output.new)) }
{
    for _ in 0..u64::MAX {
        match output.write(bytes) {
            Ok(0) => return Err(StreamFault),
            Ok(count) => return Ok(count),
            Err(error) if error.kind() == ErrorKind::Interrupted => {}
            Err(_) => return Err(StreamFault),
        }
    }
    Err(StreamFault)
}
