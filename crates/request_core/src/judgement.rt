ghost use Rattle.std.specs.Prelude.{◌≡◌, ◌≢◌, ◌==◌, ◌||◌, ◌&&◌, ◌*◌};
ghost use Rattle.export_model.specs.Verdict.{verdict, is_known, allowed_flags, range_verdict, IsServedRange};

use bitflags::Flags;
use export_model::Action;
use image_model::{BLOCK_BYTES, Geometry};
use nbd_wire::{
    BLOCK_STATUS, CommandFlags, DISCONNECT, Errno, FLUSH, MAX_PAYLOAD, READ, RequestHead,
    SessionFlags, TRIM, WRITE, WRITE_ZEROES,
};

/// Judges a request by the rules of `docs/FORMATS.md`, "Validation": the first that applies decides.
pub fn judge(head: &RequestHead, geometry: &Geometry, flags: &SessionFlags) -> Result<Action, Errno>
    ensures verdict { result ≡ verdict head.now geometry.now flags.now }
    ensures end { result ≡ Ok Action.End → head.now.kind ≡ 2 }
    ensures range { result ≡ Ok Action.Serve → head.now.kind ≢ 3 → IsServedRange head.now geometry.now }
{
    if head.kind == DISCONNECT {
        return Ok(Action::End);
    }
    let allowed = allowed(head.kind, flags.structured);
    if !is_served(head.kind) || head.flags & allowed != head.flags {
        return Err(Errno::Invalid);
    }
    if head.kind == FLUSH {
        return if head.offset == 0 && head.length == 0 {
            Ok(Action::Serve)
        } else {
            Err(Errno::Invalid)
        };
    }
    if head.kind == BLOCK_STATUS && !(flags.structured && flags.context) {
        return Err(Errno::Invalid);
    }
    judge_range(head, geometry)
}

// Whether the type is one that a client may send.
fn is_served(kind: u16) -> bool
    ensures { result ≡ is_known kind }
{
    matches!(
        kind,
        READ | WRITE | DISCONNECT | FLUSH | TRIM | WRITE_ZEROES | BLOCK_STATUS
    )
}

// The flags that a request of this type may have.
fn allowed(kind: u16, structured: bool) -> u16
    ensures { result ≡ allowed_flags kind structured }
{
    match kind {
        WRITE_ZEROES => CommandFlags::FUA.bits() | CommandFlags::NO_HOLE.bits(),
        READ if structured => CommandFlags::FUA.bits() | CommandFlags::DF.bits(),
        BLOCK_STATUS => CommandFlags::FUA.bits() | CommandFlags::REQ_ONE.bits(),
        _ => CommandFlags::FUA.bits(),
    }
}

// Judges the range of a request that names one.
fn judge_range(head: &RequestHead, geometry: &Geometry) -> Result<Action, Errno>
    ensures verdict { result ≡ range_verdict head.now geometry.now }
    ensures range { result ≡ Ok Action.Serve → IsServedRange head.now geometry.now }
{
    if head.length == 0 {
        return Err(Errno::Invalid);
    }
    if matches!(head.kind, READ | WRITE) && head.length > MAX_PAYLOAD {
        return Err(Errno::Invalid);
    }
    let size = BLOCK_BYTES * geometry.blocks;
    if head.offset > size || size - head.offset < head.length as u64 {
        return Err(match head.kind {
            WRITE | WRITE_ZEROES => Errno::NoSpace,
            _ => Errno::Invalid,
        });
    }
    Ok(Action::Serve)
}
