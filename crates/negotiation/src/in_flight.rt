//! A connection with several requests in progress: one thread reads and serves them, and replies that come later are written by others.
ghost use Rattle.std.specs.Prelude.{◌≡◌, [], false, true, IfSome, Some};
ghost use Rattle.nbd_wire.specs.Reply.{IsAnswerTo};
ghost use Rattle.negotiation.specs.Dialog.{HasNoDisc, is_disc};
ghost use Rattle.negotiation.specs.Talk.{is_thrown_away, refusal};

use crate::connection::empty_piece;
use crate::end::End;
use crate::hear::{hear, negotiate};
use crate::offer::OfferedExport;
use crate::serve::{MOST_DUE, Serve, is_thrown_away, is_whole};
use crate::session::Session;
use nbd_wire::{
    Answer, DataBuffers, Errno, Reply, Request, RequestHead, SessionFlags, StreamFault,
    encode_before_data,
};
use std::alloc::Global;
use std::io::{self, Read, Write};
use std::marker::Model;

/// Where the replies of a connection go, which several threads write.
pub trait SharedOutput {
    /// Writes what is due and these bytes after it. Nothing that another thread writes comes between them. Nothing is due afterwards.
    /// Refusal 21 (stream fault).
    fn write(&self, due: &mut Vec<u8>, bytes: &[u8]) -> Result<(), StreamFault>
        ensures { due.new.items ≡ [] };
}

/// An export that goes on with a connection's next request while one of its requests waits until something is stored.
pub trait ServeInFlight: DataBuffers {
    /// It is told which requests it will serve next, in this order.
    fn expect(&self, _requests: &[Request]) {}

    /// Whether its caller may have to wait before a request with this head is begun. It decides when replies are written and nothing
    /// else.
    fn may_hold_up(&self, head: &RequestHead) -> bool;

    /// Begins a request, which isn't a DISC, and whose data were kept: its reply, or None if another thread writes the reply later.
    fn begin(&self, request: Request, flags: &SessionFlags) -> Option<Reply>
        requires kept { is_thrown_away request.head ≡ false }
        requires no_disc { is_disc request ≡ false }
        ensures cookie { IfSome result (λ reply. reply.cookie ≡ request.head.cookie) }
        ensures kind { IfSome result (λ reply. IsAnswerTo flags.now request.head.kind reply.answer) };

    /// It gets a reply back that isn't needed any more, so that it can use the buffer again.
    fn reuse(&self, _reply: Reply) {}
}

/// A session whose handshake is over, and the requests that came with its last piece.
#[derive(Drop)]
pub struct Transmission {
    session: Session,
    requests: Vec<Request>,
    piece: Vec<u8>,
    due: Vec<u8>,
}

impl Model for Transmission {
    ghost use Rattle.negotiation.specs.Session.{SessionState};
    ghost use Rattle.negotiation.specs.inner.InFlight.{IsTransmission};

    ghost Value = { SessionState };

    ghost view = { λ transmission. transmission.session };

    ghost invariant = { λ transmission. IsTransmission transmission.session transmission.requests.items transmission.piece transmission.due.items };
}

impl Transmission {
    /// Has the handshake of a connection, from its first byte on. Refusals 0 (no memory), 19 (peer closed), 20 (protocol end) and 21
    /// (stream fault).
    pub fn after_handshake<P, S: Serve<P>, R: Read, W: Write>(
        alloc: Global,
        input: &mut R,
        output: &mut W,
        export: &S,
    ) -> Result<Transmission, End> {
        let offer = OfferedExport::new(alloc, export.geometry(), export.name(), export.flushes())?;
        let mut session = Session::new(alloc, offer);
        let mut piece = empty_piece(alloc)?;
        let mut due = Vec::new(alloc);
        let requests = negotiate(input, output, &mut session, &mut piece, &mut due, export)?;
        export.handshake_is_over();
        Ok(Transmission {
            session,
            requests,
            piece,
            due,
        })
    }

    /// What the replies to requests go by.
    pub fn flags(&self) -> SessionFlags
        ensures { result ≡ self.now.agreed.flags }
    {
        self.session.flags()
    }

    /// Reads requests and begins each of them, until the client ends the session, which is Ok, or its input ends. Requests may still
    /// wait then. Refusals 0 (no memory), 19 (peer closed), 20 (protocol end) and 21 (stream fault).
    pub fn read_on<S: ServeInFlight, R: Read, O: SharedOutput>(
        self,
        input: &mut R,
        output: &O,
        export: &S,
    ) -> Result<(), End> {
        let Transmission {
            mut session,
            mut requests,
            mut piece,
            mut due,
        } = self;
        let flags = session.flags();
        // (After the handshake nothing is written for what is read.)
        let mut nothing = io::sink();
        for _ in 0..u64::MAX {
            begin_all(export, &flags, requests, output, &mut due)?;
            if session.ended() {
                return Ok(());
            }
            requests = hear(
                input,
                &mut nothing,
                &mut session,
                &mut piece,
                &mut due,
                export,
            )?;
        }
        Err(End::IoFault)
    }
}

// Begins requests one after another, and writes the replies of those that don't wait: before a request that may hold its caller up, if more
// than 1 MiB is due, and at the end.
fn begin_all<S: ServeInFlight, O: SharedOutput>(
    export: &S,
    flags: &SessionFlags,
    requests: Vec<Request>,
    output: &O,
    due: &mut Vec<u8>,
) -> Result<(), End>
    requires none_due { due.old.items ≡ [] }
    requires no_disc { HasNoDisc requests.items }
    ensures none_due { due.new.items ≡ [] }
{
    export.expect(&requests);
    let mut requests = requests;
    requests.reverse();
    while let Some(request) = requests.pop() {
        if export.may_hold_up(&request.head()) || due.len() > MOST_DUE {
            write_shared(output, due)?;
        }
        if let Err(end) = begin(export, flags, request, output, due) {
            due.clear();
            return Err(end);
        }
    }
    write_shared(output, due)?;
    Ok(())
}

// Writes what is due.
fn write_shared<O: SharedOutput>(output: &O, due: &mut Vec<u8>) -> Result<(), StreamFault>
    ensures { due.new.items ≡ [] }
{
    if due.is_empty() {
        return Ok(());
    }
    output.write(due, &[])
}

// Begins a request, and puts its reply after those that are due if it has one; long data of a READ are written at once, from where they are.
fn begin<S: ServeInFlight, O: SharedOutput>(
    export: &S,
    flags: &SessionFlags,
    request: Request,
    output: &O,
    due: &mut Vec<u8>,
) -> Result<(), End>
    requires { is_disc request ≡ false }
{
    let head = request.head();
    let Some(reply) = reply_at_once(export, flags, request) else {
        return Ok(());
    };
    let bytes = encode_before_data(&reply, flags, head.kind, is_whole(&head), due)?;
    if !bytes.is_empty() {
        output.write(due, bytes)?;
    }
    export.reuse(reply);
    Ok(())
}

// The reply to a request, if it doesn't wait. A WRITE whose data were thrown away is too long, and isn't handed over.
fn reply_at_once<S: ServeInFlight>(
    export: &S,
    flags: &SessionFlags,
    request: Request,
) -> Option<Reply>
    requires { is_disc request ≡ false }
    ensures kind { IfSome result (λ reply. IsAnswerTo flags.now request.head.kind reply.answer) }
    ensures cookie { IfSome result (λ reply. reply.cookie ≡ request.head.cookie) }
    ensures thrown_away { is_thrown_away request.head ≡ true → result ≡ Some (refusal request.head) }
{
    let head = request.head();
    if is_thrown_away(&head) {
        return Some(Reply {
            cookie: head.cookie,
            answer: Answer::Refused(Errno::Invalid),
        });
    }
    export.begin(request, flags)
}
