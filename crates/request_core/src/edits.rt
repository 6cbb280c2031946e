//! Write requests as edits of the image.

ghost use Rattle.std.specs.Prelude.{◌≡◌, ◌<◌, true, length};
ghost use Rattle.image_model.specs.Edit.{edit_of};
ghost use Rattle.nbd_wire.specs.Request.{Message, handed_len};
ghost use Rattle.request_core.specs.inner.Edits.{IsHandedBack};
ghost use Rattle.export_model.specs.Log.{cleared_as, edit_asked, is_write};

use bitflags::Flags;
use image_model::{Edit, Kind};
use nbd_wire::{CommandFlags, Request, RequestHead, WRITE, WRITE_ZEROES};
use std::alloc::Global;

// The head of a write request, and the edit that it asks for, which takes its data.
pub(crate) fn split_request(request: Request) -> (RequestHead, Edit)
    requires write { is_write request ≡ true }
    ensures head { result.0 ≡ request.head }
    ensures edit { edit_of result.1 ≡ edit_asked request }
    ensures whole { length request.bytes ≡ handed_len request.head }
    ensures few { request.head.length < 4294967296 }
    ensures back { IsHandedBack result.0 result.1 }
{
    let (head, bytes) = request.into_parts();
    let edit = match head.kind {
        WRITE => Edit::Put {
            offset: head.offset,
            bytes,
        },
        WRITE_ZEROES => Edit::Zeroes {
            offset: head.offset,
            length: head.length,
            kind: cleared_as(&head),
        },
        _ => Edit::Trim {
            offset: head.offset,
            length: head.length,
        },
    };
    (head, edit)
}

// The request again, of which this is the edit.
pub(crate) fn join_request(alloc: Global, head: RequestHead, edit: Edit) -> Request
    requires back { IsHandedBack head edit }
    ensures { (request : Message) → request.head ≡ head → length request.bytes ≡ handed_len head → edit_of edit ≡ edit_asked request → result ≡ request }
{
    match edit {
        Edit::Put { offset: _, bytes } => Request::new(head, bytes),
        Edit::Zeroes { .. } | Edit::Trim { .. } => Request::new(head, Vec::new(alloc)),
    }
}

// What becomes of the blocks that are made zero.
fn cleared_as(head: &RequestHead) -> Kind
    ensures { result ≡ cleared_as head.now }
{
    let no_hole = CommandFlags::NO_HOLE.bits();
    if head.kind == WRITE_ZEROES && head.flags & no_hole == no_hole {
        Kind::Zero
    } else {
        Kind::Hole
    }
}
