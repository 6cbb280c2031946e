ghost use Rattle.std.specs.Prelude.{◌≡◌, ◌↔◌, ◌⊎◌, ◌<◌, ◌≤◌, ◌++◌, [], Bool, List, false, length, vec_len, IfErr, IfOk, IfSome, IsErrOf, Ok, Err, OnErr, OnOk};
ghost use Rattle.std.specs.Io.KnownBytes.{ReadConsumes};
ghost use Rattle.nbd_wire.specs.Writes.{WritesPart};
ghost use Rattle.disk_model.specs.Faults.{HasRisen};
ghost use Rattle.nbdj_pipe.specs.inner.Export.{IsSettled, Settles};
ghost use Rattle.nbdj_pipe.specs.Life.{IsLived};
ghost use Rattle.nbdj_pipe.specs.inner.Life.{IsOpenedFrom};
ghost use Rattle.nbdj_pipe.specs.Pipe.{IsOrderly, IsPiped, IsUnopened};
ghost use Rattle.nbdj_pipe.specs.inner.Refusals.{IsOfExport};
ghost use Rattle.nbdj_pipe.specs.inner.Session.{IsEndOr, IsEndShown, IsFed, Runs, Serves, StaysOpen, Takes};
ghost use Rattle.nbdj_pipe.specs.Talk.{data_of, error_of, plain, reply_to};
ghost use Rattle.front_end.specs.declared.refusal.Refusal.TheVariants as Refusal;
ghost use Rattle.nbd_wire.specs.Stream.{fresh};
ghost use Rattle.device_image.specs.Holds.{Holds};
ghost use Rattle.image_model.specs.Image.{Image};
ghost use Rattle.image_model.specs.declared.command.Kind.{Kind};
ghost use Rattle.image_model.specs.Layout.{area_size_of};
ghost use Rattle.order_book.specs.Order.{IsInHand, new_order};
ghost use Rattle.order_book.specs.Shown.{ShowsImage};
ghost use Rattle.export_steps.specs.Bench.{new_connections};
ghost use Rattle.export_steps.specs.Life.{Trusts};
ghost use Rattle.export_steps.specs.Parts.{IsExportOf};
ghost use Rattle.export_model.specs.World.{World};

use crate::export::Export;
use checkpoint::Keeper;
use device_image::keeper_laws;
use disk_model::Disk;
use export_model::schedule_law;
use export_steps::{Connections, fresh_parts_law, leads_law};
use front_end::{PipeOptions, Refusal};
use marks::{BlankBoard, Board, BoardName, KeeperSeat, Opened};
use nbd_wire::{
    Answer, Request, SessionFlags, StreamFault, StreamReader, encode_simple_reply, one_reading,
    read_some, write_whole,
};
use order_book::Order;
use request_core::fresh_order;
use std::alloc::{AllocError, Global};
use std::io::{Read, Write};
use std::marker::Brand;

// The most bytes that one read takes, and the most of them after the data at hand: 8 heads of requests. The replies to as many
// READs of 1 MiB still lie in a cache when they are written.
const PIECE_BYTES: usize = 65_536;

const HEAD_BYTES: usize = 224;

// What both sides of a pipe agree on without a handshake.
const PLAIN: SessionFlags = SessionFlags {
    structured: false,
    context: false,
};

/// Serves one connection without a handshake, with simple replies: requests from `input`, replies to `output`.
///
/// At the end of the input what is pending is stored. It ends with Ok after a DISC; `docs/FORMATS.md`, "Refusals", has
/// the numbers of the other ends. A fault of the device is told once the input has come to its end.
pub fn pipe<D: Disk, R: Read, W: Write>(
    alloc: Global,
    disk: D,
    options: PipeOptions,
    input: &mut R,
    output: &mut W,
) -> (Result<(), Refusal>, D)
    ensures extent { D.extent result.1 ≡ D.extent disk }
    ensures honest { D.honest result.1 ↔ D.honest disk }

    // If the opening is refused nothing is read or written. Otherwise the simple replies to the requests read are written,
    // one to each up to the first end of the stream, or after an early refusal perhaps only the first bytes of these. The
    // answers are those of a run of the world, in which these requests were sent.
    ensures dialog { IsUnopened D.state D.faults D.honest disk result.1 (R.remaining input.old) (R.remaining input.new) (W.contents output.old) (W.contents output.new) result.0
        ⊎ IsPiped (R.remaining input.old) (R.remaining input.new) (W.contents output.old) (W.contents output.new) result.0
        (IsLived D.state D.faults D.honest options.frames options.mode disk result.1) }
    ensures device { IsErrOf result.0 Refusal.DeviceFault → HasRisen (D.faults disk) (D.faults result.1) }
{
    let keeper = match Keeper::open(alloc, disk) {
        Ok(keeper) => keeper,
        Err((fault, disk)) => return (Err(Refusal::from(fault)), disk),
    };
    match BlankBoard::new(alloc, keeper.count()) {
        Ok(blank) => { pipe_over::<Brand, D, R, W>(alloc, blank, keeper, options, input, output) }
        Err(_) => (Err(Refusal::NoMemory), keeper.into_disk()),
    }
}

// Serves the connection over a device that was opened, with a board that gets its name here.
fn pipe_over<B: BoardName, D: Disk, R: Read, W: Write>(
    alloc: Global,
    blank: BlankBoard,
    keeper: Keeper<D>,
    options: PipeOptions,
    input: &mut R,
    output: &mut W,
) -> (Result<(), Refusal>, D)
    requires board { blank.board ≡ B.board }
    requires named { blank.opening ≡ B.opening }
    requires opening { blank.opening ≡ keeper.count }
    ensures extent { D.extent result.1 ≡ D.extent keeper.disk }
    ensures honest { D.honest result.1 ↔ D.honest keeper.disk }
    ensures dialog { (start : D) → IsOpenedFrom D.state D.faults D.honest start keeper
        → IsUnopened D.state D.faults D.honest start result.1 (R.remaining input.old) (R.remaining input.new) (W.contents output.old) (W.contents output.new) result.0
        ⊎ IsPiped (R.remaining input.old) (R.remaining input.new) (W.contents output.old) (W.contents output.new) result.0
        (IsLived D.state D.faults D.honest options.frames options.mode start result.1) }
    ensures device { (start : D) → IsOpenedFrom D.state D.faults D.honest start keeper
        → IsErrOf result.0 Refusal.DeviceFault → HasRisen (D.faults start) (D.faults result.1) }
{
    keeper_laws::<D>();
    leads_law::<D>();
    fresh_parts_law::<D>();
    schedule_law();
    let (board, seat, order, connections) = match fresh_parts::<B, D>(
        alloc, blank, &keeper, options,
    ) {
        Ok(parts) => parts,
        Err(_) => return (Err(Refusal::NoMemory), keeper.into_disk()),
    };
    let mut session = Session {
        export: Export {
            alloc,
            board,
            order,
            seat,
            keeper,
            connections,
        },
        replies: Vec::new(alloc),
    };
    let mut reader = StreamReader::new(alloc);
    let mut piece = Vec::new(alloc);
    let end = session.run(&mut reader, &mut piece, input, output);
    let outcome = session.finish(end);
    let Session { export, replies: _ } = session;
    (outcome, export.into_disk())
}

// The board under its name with the keeper's seat, and an order and a connection over what the opening left.
fn fresh_parts<B: BoardName, D: Disk>(
    alloc: Global,
    blank: BlankBoard,
    keeper: &Keeper<D>,
    options: PipeOptions,
) -> Result<(Board<B>, KeeperSeat<B>, Order<B>, Connections<B>), AllocError>
    requires board { blank.board ≡ B.board }
    requires named { blank.opening ≡ B.opening }
    requires opening { blank.opening ≡ keeper.now.count }
    ensures order { IfOk result (λ parts. (states : List Kind) × (length states ≡ keeper.now.geometry.blocks)
        × (parts.2 ≡ new_order states keeper.now.count options.frames (area_size_of keeper.now.geometry.layout keeper.now.geometry.area))) }
    ensures image { (image : Image) → Holds keeper.now (D.state keeper.now.disk) image [] [] → IfOk result (λ parts. ShowsImage image parts.2.cache) }
    ensures connections { IfOk result (λ parts. parts.3 ≡ new_connections 1 plain options.mode) }
    ensures few { OnOk result (keeper.now.count < 18446744073709551616) }
{
    let Opened {
        board,
        order: order_seat,
        keeper: seat,
        roster: _,
        passes,
    } = blank.open::<B>(alloc, 1)?;
    let order = fresh_order(alloc, keeper, options.frames, order_seat)?;
    let connections = Connections::new(alloc, passes, PLAIN, options.mode)?;
    Ok((board, seat, order, connections))
}

// Whether requests of a session may follow.
#[derive(Clone, Copy)]
enum Flow {
    Open,
    Ended,
}

// One connection.
struct Session<B: BoardName, D: Disk> {
    export: Export<B, D>,
    // Replies that are due and not written yet.
    replies: Vec<u8>,
}

impl<B: BoardName, D: Disk> Session<B, D> {
    // Serves the requests up to the first end. Reader and piece are the caller's, where they are let go once, and not at each
    // exit.
    fn run<R: Read, W: Write>(
        &mut self,
        reader: &mut StreamReader,
        piece: &mut Vec<u8>,
        input: &mut R,
        output: &mut W,
    ) -> Result<(), Refusal>
        requires fresh { reader.old ≡ fresh }
        requires group { IfSome self.old.export.connections.group (IsInHand self.old.export.order) }
        requires none_due { self.old.replies.items ≡ [] }
        ensures group { IfSome self.new.export.connections.group (IsInHand self.new.export.order) }
        ensures extent { D.extent self.new.export.keeper.disk ≡ D.extent self.old.export.keeper.disk }
        ensures honest { D.honest self.new.export.keeper.disk ↔ D.honest self.old.export.keeper.disk }
        ensures dialog { IsPiped (R.remaining input.old) (R.remaining input.new) (W.contents output.old) (W.contents output.new) result
            (Runs D.state D.faults D.honest self.old.export.order self.old.export.keeper self.old.export.connections
            self.new.export.order self.new.export.keeper self.new.export.connections) }
        ensures early { IsErrOf result Refusal.DeviceFault → ⊥ }
    {
        leads_law::<D>();
        for _ in 0..u64::MAX {
            let count = read_piece(reader, input, piece)?;
            if count == 0 {
                return Err(Refusal::PeerClosed);
            }
            let flow = self.take(reader, &piece[..count]);
            self.write_replies(output)?;
            match flow? {
                Flow::Ended => return Ok(()),
                Flow::Open => {}
            }
        }
        Err(Refusal::StreamFault)
    }

    // Serves the requests that are whole with this piece of the input. A fault after them ends the session before more
    // input is waited for.
    fn take(&mut self, reader: &mut StreamReader, piece: &[u8]) -> Result<Flow, Refusal>
        requires group { IfSome self.old.export.connections.group (IsInHand self.old.export.order) }
        ensures group { IfSome self.new.export.connections.group (IsInHand self.new.export.order) }
        ensures extent { D.extent self.new.export.keeper.disk ≡ D.extent self.old.export.keeper.disk }
        ensures honest { D.honest self.new.export.keeper.disk ↔ D.honest self.old.export.keeper.disk }
        ensures takes { Takes reader.old piece.now reader.new self.old.replies.items self.new.replies.items result
            (Runs D.state D.faults D.honest self.old.export.order self.old.export.keeper self.old.export.connections
            self.new.export.order self.new.export.keeper self.new.export.connections) }
        ensures is_open { StaysOpen reader.old reader.new result }
    {
        leads_law::<D>();
        one_reading();
        match self.take_whole(reader, piece)? {
            Flow::Ended => Ok(Flow::Ended),
            Flow::Open => self.take_whole(reader, &[]),
        }
    }

    // Serves the requests that the reader hands out for this piece.
    fn take_whole(&mut self, reader: &mut StreamReader, piece: &[u8]) -> Result<Flow, Refusal>
        requires group { IfSome self.old.export.connections.group (IsInHand self.old.export.order) }
        ensures group { IfSome self.new.export.connections.group (IsInHand self.new.export.order) }
        ensures extent { D.extent self.new.export.keeper.disk ≡ D.extent self.old.export.keeper.disk }
        ensures honest { D.honest self.new.export.keeper.disk ↔ D.honest self.old.export.keeper.disk }
        ensures takes { Takes reader.old piece.now reader.new self.old.replies.items self.new.replies.items result
            (Runs D.state D.faults D.honest self.old.export.order self.old.export.keeper self.old.export.connections
            self.new.export.order self.new.export.keeper self.new.export.connections) }
        ensures is_open { IsFed reader.old piece.now reader.new result }
    {
        leads_law::<D>();
        let mut requests = reader.feed(piece, &())?;
        requests.reverse();
        while let Some(request) = requests.pop() {
            match self.serve(request)? {
                Flow::Ended => return Ok(Flow::Ended),
                Flow::Open => {}
            }
        }
        Ok(Flow::Open)
    }

    // Serves a request, and puts its reply after those that are due.
    fn serve(&mut self, request: Request) -> Result<Flow, Refusal>
        requires group { IfSome self.old.export.connections.group (IsInHand self.old.export.order) }
        ensures group { IfSome self.new.export.connections.group (IsInHand self.new.export.order) }
        ensures extent { D.extent self.new.export.keeper.disk ≡ D.extent self.old.export.keeper.disk }
        ensures honest { D.honest self.new.export.keeper.disk ↔ D.honest self.old.export.keeper.disk }
        ensures serves { Serves request self.old.replies.items self.new.replies.items result
            (Runs D.state D.faults D.honest self.old.export.order self.old.export.keeper self.old.export.connections
            self.new.export.order self.new.export.keeper self.new.export.connections) }
    {
        let cookie = request.head().cookie;
        match self.export.serve(request)? {
            None => Ok(Flow::Ended),
            Some(answer) => {
                append_reply(cookie, &answer, &mut self.replies)?;
                Ok(Flow::Open)
            }
        }
    }

    // Writes the replies that are due. After a fault some of them may be written, and none is written twice.
    fn write_replies<W: Write>(&mut self, output: &mut W) -> Result<(), StreamFault>
        ensures none { self.new.replies.items ≡ [] }
        ensures same { self.new.export ≡ self.old.export }
        ensures written { WritesPart (W.contents output.old) (W.contents output.new) self.old.replies.items result }
    {
        let written = write_whole(output, &self.replies);
        self.replies.clear();
        written
    }

    // Stores what is pending. A fault of the device is told in place of an orderly end, because what was answered may be lost,
    // and what kept commands from being stored in place of that or of a fault of the streams; another early end was told
    // for a reason of its own.
    fn finish(&mut self, end: Result<(), Refusal>) -> Result<(), Refusal>
        requires group { IfSome self.old.export.connections.group (IsInHand self.old.export.order) }
        ensures group { IfSome self.new.export.connections.group (IsInHand self.new.export.order) }
        ensures extent { D.extent self.new.export.keeper.disk ≡ D.extent self.old.export.keeper.disk }
        ensures honest { D.honest self.new.export.keeper.disk ↔ D.honest self.old.export.keeper.disk }
        ensures end { IsEndOr end result self.new.export.order.stopped }
        ensures stored { IsOrderly result → self.new.export.order.durable ≡ self.new.export.order.mark }
        ensures works { IsOrderly result → self.new.export.order.stopped ≡ false }
        ensures broken { IsErrOf result Refusal.StreamFault → IsSettled self.new.export.order }
        ensures world { (world : World) (trusted : Bool) → IsExportOf world self.old.export.order self.old.export.keeper (D.faults self.old.export.keeper.disk) self.old.export.connections
            (Trusts trusted (D.honest self.old.export.keeper.disk)) (D.state self.old.export.keeper.disk)
            → (next : World) × Settles world next self.new.export.order self.new.export.keeper (D.faults self.new.export.keeper.disk) self.new.export.connections
            (Trusts trusted (D.honest self.new.export.keeper.disk)) (D.state self.old.export.keeper.disk) (D.state self.new.export.keeper.disk)
            × IsEndShown end result world next }
    {
        let stored = self.export.store_all();
        outcome(end, stored, self.export.order.is_stopped())
    }
}

// How a session ends whose input ended so, whose last commands were stored or not, and whose device has failed or not.
fn outcome(
    end: Result<(), Refusal>,
    stored: Result<(), Refusal>,
    stopped: bool,
) -> Result<(), Refusal>
    requires { IfErr stored IsOfExport }
    ensures end { IsEndOr end result stopped }
    ensures stored { IsOrderly result → (stopped ≡ false) × (stored ≡ Ok tt) }
    ensures broken { IsErrOf result Refusal.StreamFault → stored ≡ Ok tt }
    ensures told { (result ≡ end) ⊎ (result ≡ stored) ⊎ (result ≡ Err Refusal.DeviceFault) }
{
    match end {
        Ok(()) | Err(Refusal::PeerClosed | Refusal::ProtocolEnd) if stopped => {
            Err(Refusal::DeviceFault)
        }
        Ok(()) | Err(Refusal::PeerClosed | Refusal::ProtocolEnd | Refusal::StreamFault) => {
            stored?;
            end
        }
        Err(refusal) => Err(refusal),
    }
}

// Appends the simple reply to the request with this cookie.
fn append_reply(cookie: u64, answer: &Answer, replies: &mut Vec<u8>) -> Result<(), AllocError>
    ensures ok { OnOk result (replies.new.items ≡ replies.old.items ++ reply_to cookie answer.now) }
    ensures err { OnErr result (replies.new.items ≡ replies.old.items) }
{
    encode_simple_reply(error_number(answer), cookie, data(answer), replies)
}

// The number of an answer's error on the wire, 0 for none.
fn error_number(answer: &Answer) -> u32
    ensures { result ≡ error_of answer.now }
{
    match answer {
        Answer::Refused(errno) => errno.number(),
        Answer::Done | Answer::Bytes(_) | Answer::States(_) => 0,
    }
}

// The bytes that an answer hands over.
fn data(answer: &Answer) -> &[u8]
    ensures { result.now ≡ data_of answer.now }
{
    match answer {
        Answer::Bytes(read) => read.bytes(),
        Answer::Done | Answer::Refused(_) | Answer::States(_) => &[],
    }
}

// Reads what there is, but no more after the data at hand than the heads of some requests: all of them are answered before
// the replies are written, and a READ has up to 1 MiB of them.
fn read_piece<R: Read>(
    reader: &StreamReader,
    input: &mut R,
    piece: &mut Vec<u8>,
) -> Result<usize, Refusal>
    ensures some { OnOk result (0 < vec_len piece.new) }
    ensures within { IfOk result (λ count. count ≤ vec_len piece.new) }
    ensures bytes { ReadConsumes (R.remaining input.old) (R.remaining input.new) result piece.new.items }
    ensures unshown { IfErr result (λ refusal. (refusal ≡ Refusal.NoMemory) ⊎ (refusal ≡ Refusal.StreamFault)) }
{
    let data = reader.room().min(PIECE_BYTES - HEAD_BYTES);
    piece.resize(data + HEAD_BYTES, 0)?;
    Ok(read_some(input, piece)?)
}
