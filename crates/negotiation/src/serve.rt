ghost use Rattle.std.specs.Prelude.{◌≡◌, ℕ, Bool, ◌≤◌, ◌++◌, List, [], false, is_ok, vec_len, IfErr, IsTrue, OnOk};
ghost use Rattle.nbd_wire.specs.Reply.{IsAnswerTo};
ghost use Rattle.nbd_wire.specs.Request.{Message};
ghost use Rattle.negotiation.specs.Dialog.{HasNoDisc, is_disc};
ghost use Rattle.nbd_wire.specs.declared.message.Reply.{Reply};
ghost use Rattle.nbd_wire.specs.declared.message.SessionFlags.{SessionFlags};
ghost use Rattle.image_model.specs.declared.geometry.Geometry.{Geometry};
ghost use Rattle.negotiation.specs.Streams.{IsEarly};
ghost use Rattle.negotiation.specs.inner.Streams.{Writes};
ghost use Rattle.negotiation.specs.Talk.{Answers, IsStep, is_thrown_away, is_whole};
ghost use Rattle.negotiation.specs.inner.Talk.{ServesOn};

use crate::end::End;
use crate::offer::OfferedName;
use bitflags::Flags;
use image_model::Geometry;
use nbd_wire::{
    Answer, CommandFlags, DataBuffers, Errno, MAX_PAYLOAD, Reply, Request, RequestHead,
    SessionFlags, StreamFault, WRITE, encode_before_data, write_unflushed, write_whole,
};
use std::io::Write;

// If the replies that are due pass this many bytes they are written: 1 MiB.
pub(crate) const MOST_DUE: usize = 1_048_576;

/// An export, as a session sees it. `P` is what an export keeps of one connection.
pub trait Serve<P>: DataBuffers {
    // The relation of its calls, of the pass before, the request, what the session agreed on, the pass after and the reply.
    ghost allows: { Self → P → Message → SessionFlags → P → Reply → Type 0 };

    ghost extent: { Self → Geometry };

    ghost name: { Self → List ℕ };

    ghost flushes: { Self → Bool };

    /// The sizes of its image.
    fn geometry(&self) -> Geometry
        ensures { result ≡ extent self.now };

    /// The name that clients ask for it by.
    fn name(&self) -> OfferedName<'_>
        ensures { result.bytes.now ≡ name self.now };

    /// Whether it offers FLUSH and FUA: not where they make nothing durable. A FLUSH that comes all the same is answered.
    fn flushes(&self) -> bool
        ensures { result ≡ flushes self.now };

    /// Whether the answer to a request with this head may keep its caller waiting. It decides when replies are written and
    /// nothing else.
    fn may_wait(&self, head: &RequestHead) -> bool;

    /// It is told which requests it will serve next, in this order.
    fn expect(&self, _requests: &[Request]) {}

    /// It is told that the handshake is over: requests come, or the client has ended the session.
    fn handshake_is_over(&self) {}

    /// It gets a reply back that isn't needed any more, so that it can use the buffer again.
    fn reuse(&self, _reply: Reply) {}

    /// Answers a request, which isn't a DISC, and whose data were kept.
    fn serve(&self, pass: &mut P, request: Request, flags: &SessionFlags) -> Reply
        requires kept { is_thrown_away request.head ≡ false }
        requires no_disc { is_disc request ≡ false }
        ensures allowed { allows self.now pass.old request flags.now pass.new result }
        ensures cookie { result.cookie ≡ request.head.cookie }
        ensures kind { IsAnswerTo flags.now request.head.kind result.answer };
}

/// Answers requests in turn, and writes the replies. What is due is written before a request is served whose answer may
/// keep it waiting, where it passes 1 MiB, and at the end. Refusals 0 (no memory) and 21 (stream fault).
pub fn answer_all<P, S: Serve<P>, W: Write>(
    export: &S,
    pass: &mut P,
    flags: &SessionFlags,
    requests: Vec<Request>,
    output: &mut W,
    due: &mut Vec<u8>,
) -> Result<(), End>
    requires none_due { due.old.items ≡ [] }
    requires no_disc { HasNoDisc requests.items }
    ensures answers { Answers (S.allows export.now) flags.now pass.old requests.items pass.new (W.contents output.old) (W.contents output.new) (is_ok result) }
    ensures none_due { OnOk result (due.new.items ≡ []) }
    ensures early { IfErr result IsEarly }
{
    export.expect(&requests);
    let mut requests = requests;
    requests.reverse();
    while let Some(request) = requests.pop() {
        let waits = export.may_wait(&request.head());
        write_before(waits, output, due)?;
        answer(export, pass, flags, request, output, due)?;
    }
    write_due(output, due)?;
    Ok(())
}

// Writes what is due before an answer that may take its time, and where it is much.
fn write_before<W: Write>(waits: bool, output: &mut W, due: &mut Vec<u8>) -> Result<(), StreamFault>
    ensures waits { IsTrue waits → OnOk result (due.new.items ≡ []) }
    ensures much { OnOk result (vec_len due.new ≤ 1048576) }
    ensures writes { Writes (W.contents output.old) (W.contents output.new) due.old.items due.new.items (is_ok result) }
{
    if waits {
        return write_due(output, due);
    }
    if due.len() > MOST_DUE {
        return write_due(output, due);
    }
    Ok(())
}

// Writes what is due.
pub fn write_due<W: Write>(output: &mut W, due: &mut Vec<u8>) -> Result<(), StreamFault>
    ensures none { due.new.items ≡ [] }
    ensures writes { Writes (W.contents output.old) (W.contents output.new) due.old.items due.new.items (is_ok result) }
{
    if due.is_empty() {
        return Ok(());
    }
    let written = write_whole(output, due);
    due.clear();
    written
}

// Answers a request, and puts its reply after those that are due; long data of a READ are written at once, from where they are.
fn answer<P, S: Serve<P>, W: Write>(
    export: &S,
    pass: &mut P,
    flags: &SessionFlags,
    request: Request,
    output: &mut W,
    due: &mut Vec<u8>,
) -> Result<(), End>
    requires { is_disc request ≡ false }
    ensures serves { ServesOn (S.allows export.now) flags.now pass.old request pass.new (W.contents output.old) (W.contents output.new) due.old.items due.new.items (is_ok result) }
    ensures early { IfErr result IsEarly }
{
    let head = request.head();
    let reply = reply_to(export, pass, flags, request);
    let bytes = encode_before_data(&reply, flags, head.kind, is_whole(&head), due)?;
    write_after_due(output, due, bytes)?;
    export.reuse(reply);
    Ok(())
}

// Writes what is due and these bytes after it, so that they can go out together; not where there are none.
fn write_after_due<W: Write>(
    output: &mut W,
    due: &mut Vec<u8>,
    bytes: &[u8],
) -> Result<(), StreamFault>
    ensures { Writes (W.contents output.old) (W.contents output.new) (due.old.items ++ bytes.now) due.new.items (is_ok result) }
{
    if bytes.is_empty() {
        return Ok(());
    }
    write_first(output, due)?;
    write_whole(output, bytes)
}

// Writes what is due, and doesn't hand it on: more follows at once.
fn write_first<W: Write>(output: &mut W, due: &mut Vec<u8>) -> Result<(), StreamFault>
    ensures none { due.new.items ≡ [] }
    ensures writes { Writes (W.contents output.old) (W.contents output.new) due.old.items due.new.items (is_ok result) }
{
    let written = write_unflushed(output, due);
    due.clear();
    written
}

// The reply to a request. A WRITE whose data were thrown away is too long, and isn't handed over.
fn reply_to<P, S: Serve<P>>(
    export: &S,
    pass: &mut P,
    flags: &SessionFlags,
    request: Request,
) -> Reply
    requires { is_disc request ≡ false }
    ensures step { IsStep (S.allows export.now) flags.now pass.old (record { request = request; reply = result }) pass.new }
    ensures kind { IsAnswerTo flags.now request.head.kind result.answer }
{
    let head = request.head();
    if is_thrown_away(&head) {
        return Reply {
            cookie: head.cookie,
            answer: Answer::Refused(Errno::Invalid),
        };
    }
    export.serve(pass, request, flags)
}

pub(crate) fn is_thrown_away(head: &RequestHead) -> bool
    ensures { result ≡ is_thrown_away head.now }
{
    head.kind == WRITE && head.length > MAX_PAYLOAD
}

// Whether a READ asks for its bytes in one chunk.
pub(crate) fn is_whole(head: &RequestHead) -> bool
    ensures { result ≡ is_whole head.now }
{
    head.flags & CommandFlags::DF.bits() != 0
}
