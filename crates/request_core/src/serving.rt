ghost use Rattle.std.specs.Prelude.{◌≡◌, ◌≢◌, ◌/◌, ◌<◌, ◌↔◌, true, false, [], IfOk, IfErr, IsErr, OnErr, Result, length};
ghost use Rattle.nbd_wire.specs.declared.error.Errno.{Errno};
ghost use Rattle.image_model.specs.Edit.{blocks_met};
ghost use Rattle.image_model.specs.Image.{apply_all};
ghost use Rattle.order_book.specs.Edits.{IsKnownBy, NeedsDevice as NeedsOld};
ghost use Rattle.order_book.specs.Shown.{ShowsImage};
ghost use Rattle.request_core.specs.Outcomes.{IsServedBy, IsServedHere, IsWriteAsked, NeedsDevice};
ghost use Rattle.shared_cache.specs.Cache.{LacksBytes};
ghost use Rattle.request_core.specs.Serving.{HasSent, IsClientServed, IsPassServed, IsWriteServed, ready_for, served_after};
ghost use Rattle.export_model.specs.Log.{edit_asked, flush_waits, is_write, waits_for_store};
ghost use Rattle.export_model.specs.Verdict.{IsServedRange, verdict};
ghost use Rattle.export_model.specs.declared.action.Action.{Action};

use crate::edits::{join_request, split_request};
use crate::judgement::judge;
use crate::reading::{Blocks, serve_held_read, serve_read, serve_status};
use bitflags::Flags;
use checkpoint::Keeper;
use disk_model::Disk;
use export_model::{Action, Mode};
use image_model::Geometry;
use marks::{Board, BoardName, Pass, Trust};
use nbd_wire::{
    Answer, BLOCK_STATUS, CommandFlags, Errno, FLUSH, READ, Reply, Request, RequestHead,
    SessionFlags,
};
use order_book::{Order, OrderFault};
use std::alloc::Global;

/// What every request is judged by, and how long a write and a FLUSH wait.
#[derive(Clone, Copy)]
pub struct Terms {
    pub geometry: Geometry,
    pub flags: SessionFlags,
    pub mode: Mode,
}

/// What a request comes to when it is served.
#[derive(Drop)]
pub enum Served {
    /// It is answered.
    Ready(Reply),
    /// It is answered once the command with this number and all before it are durable.
    Wait(u64),
    /// There is no room for its command; it may be served again.
    NoRoom(Request),
}

/// A request that is handed back since it needs the keeper: a READ that touches a block which isn't in memory, or a write
/// that takes old bytes which aren't.
#[derive(Drop)]
pub struct NeedsKeeper(pub Request);

/// Serves a request that isn't a DISC, with no keeper at hand: it is judged, and a command gets its place in the order; a
/// READ and a BLOCK_STATUS show the image after all of the order.
///
/// A write command for which there is no room comes back, and so does a request for which the device has to be asked.
pub fn serve_held<B: BoardName, T: Trust>(
    alloc: Global,
    request: Request,
    order: &mut Order<B>,
    board: &Board<B, T>,
    pass: &mut Pass<B>,
    terms: Terms,
) -> Result<Served, NeedsKeeper>
    requires kind { request.head.kind ≢ 2 }
    requires blocks { length order.old.cache.states ≡ terms.geometry.blocks }
    requires asked { T.logs → HasSent T.trusted T.image order.old request pass.old.client }
    ensures blocks { length order.new.cache.states ≡ length order.old.cache.states }
    ensures serves { IfOk result (λ served. IsServedHere (verdict request.head terms.geometry terms.flags) request terms.geometry terms.mode order.old order.new served) }

    // It comes back exactly where the device is needed, and nothing has changed then.
    ensures needs { IsErr result ↔ NeedsDevice (verdict request.head terms.geometry terms.flags) request order.old }
    ensures handed_back { IfErr result (λ back. back.0 ≡ request) }
    ensures range { OnErr result (request.head.kind ≢ 3 → IsServedRange request.head terms.geometry) }
    ensures unchanged { OnErr result ((order.new ≡ order.old) × (pass.new ≡ pass.old)) }

    // What the pass knows then: a command's number is above all that it knew, a FLUSH is shown all of the order, which is no less than
    // that, and the history that it then knows begins with the one that it knew. One for which a command was accepted knows all of
    // the order's.
    ensures pass { IfOk result (λ served. IsPassServed B.opening request order.old.mark order.new.mark served pass.old pass.new) }
    ensures client { IfOk result (λ served. IsClientServed T.mode request order.old.mark order.new.mark served pass.old.client pass.new.client) }
    ensures grown { order.old.mark < order.new.mark → pass.new.history ≡ order.new.history }
{
    let head = request.head();
    match judge(&head, &terms.geometry, &terms.flags) {
        Ok(Action::End) => unreachable!(),
        Err(errno) => Ok(refuse(head.cookie, errno)),
        Ok(Action::Serve) if order.is_stopped() => Ok(refuse(head.cookie, Errno::Io)),
        Ok(Action::Serve) => serve_passed(alloc, request, order, board, pass, terms),
    }
}

// Serves a request that passes judgement, over an order that isn't stopped.
fn serve_passed<B: BoardName, T: Trust>(
    alloc: Global,
    request: Request,
    order: &mut Order<B>,
    board: &Board<B, T>,
    pass: &mut Pass<B>,
    terms: Terms,
) -> Result<Served, NeedsKeeper>
    requires passes { verdict request.head terms.geometry terms.flags ≡ Ok Action.Serve }
    requires range { request.head.kind ≢ 3 → IsServedRange request.head terms.geometry }
    requires works { order.old.stopped ≡ false }
    requires blocks { length order.old.cache.states ≡ terms.geometry.blocks }
    requires asked { T.logs → HasSent T.trusted T.image order.old request pass.old.client }
    ensures blocks { length order.new.cache.states ≡ length order.old.cache.states }
    ensures serves { IfOk result (λ served. IsServedHere (Ok Action.Serve) request terms.geometry terms.mode order.old order.new served) }
    ensures needs { IsErr result ↔ NeedsDevice (Ok Action.Serve) request order.old }
    ensures handed_back { IfErr result (λ back. back.0 ≡ request) }
    ensures unchanged { OnErr result ((order.new ≡ order.old) × (pass.new ≡ pass.old)) }
    ensures pass { IfOk result (λ served. IsPassServed B.opening request order.old.mark order.new.mark served pass.old pass.new) }
    ensures client { IfOk result (λ served. IsClientServed T.mode request order.old.mark order.new.mark served pass.old.client pass.new.client) }
    ensures grown { order.old.mark < order.new.mark → pass.new.history ≡ order.new.history }
{
    let head = request.head();
    match head.kind {
        FLUSH => Ok(answer_flush(&head, terms.mode, order.await_mark(board, pass))),
        READ => {
            let blocks = Blocks::from_head(&head);
            if order.holds(blocks.first, blocks.count) {
                let (_head, room) = request.into_parts();
                Ok(serve_held_read(alloc, &head, room, order))
            } else {
                Err(NeedsKeeper(request))
            }
        }
        BLOCK_STATUS => Ok(serve_status(alloc, &head, order)),
        _ => serve_held_edit(alloc, request, order, board, pass, terms),
    }
}

/// Serves a request that isn't a DISC, as `serve_held` does, and one that needs the keeper too.
///
/// The device is asked by such a request alone; where a call of it fails the order is stopped, and a group in hand is the
/// caller's to put back.
pub fn serve_with_keeper<B: BoardName, D: Disk, T: Trust>(
    alloc: Global,
    request: Request,
    order: &mut Order<B>,
    keeper: &mut Keeper<D>,
    board: &Board<B, T>,
    pass: &mut Pass<B>,
    terms: Terms,
) -> Served
    requires kind { request.head.kind ≢ 2 }
    requires blocks { length order.old.cache.states ≡ terms.geometry.blocks }
    requires device { terms.geometry ≡ keeper.old.geometry }
    requires asked { T.logs → HasSent T.trusted T.image order.old request pass.old.client }
    requires known { T.logs → T.trusted → keeper.old.failed ≡ false → IsKnownBy D.state D.honest keeper.old order.old (apply_all order.old.history T.image) }
    ensures blocks { length order.new.cache.states ≡ length order.old.cache.states }
    ensures geometry { keeper.new.geometry ≡ keeper.old.geometry }
    ensures count { keeper.new.count ≡ keeper.old.count }
    ensures extent { D.extent keeper.new.disk ≡ D.extent keeper.old.disk }
    ensures honest { D.honest keeper.new.disk ↔ D.honest keeper.old.disk }
    ensures serves { (given : Result Action Errno) × (given ≡ verdict request.head terms.geometry terms.flags)
        × IsServedBy D.state D.faults D.honest given request terms.geometry terms.mode order.old order.new keeper.old keeper.new result }

    // A request for which the device isn't needed doesn't ask it.
    ensures kept { (NeedsDevice (verdict request.head terms.geometry terms.flags) request order.old → ⊥) → keeper.new ≡ keeper.old }

    // A READ of blocks that are all in memory leaves the order too.
    ensures hit { request.head.kind ≡ 0 → (LacksBytes order.old.cache (request.head.offset / 4096) (blocks_met request.head.offset request.head.length) → ⊥) → (order.new ≡ order.old) × (keeper.new ≡ keeper.old) }

    // What the pass knows then: a command's number is above all that it knew, a FLUSH is shown all of the order, which is no less than
    // that, and the history that it then knows begins with the one that it knew. One for which a command was accepted knows all of
    // the order's.
    ensures pass { IsPassServed B.opening request order.old.mark order.new.mark result pass.old pass.new }
    ensures client { IsClientServed T.mode request order.old.mark order.new.mark result pass.old.client pass.new.client }
    ensures grown { order.old.mark < order.new.mark → pass.new.history ≡ order.new.history }
{
    match serve_held(alloc, request, order, board, pass, terms) {
        Ok(served) => served,
        Err(NeedsKeeper(request)) if request.head().kind == READ => {
            serve_read(alloc, &request.head(), order, keeper)
        }
        Err(NeedsKeeper(request)) => serve_edit(alloc, request, order, keeper, board, pass, terms),
    }
}

pub(crate) fn refuse(cookie: u64, errno: Errno) -> Served
    ensures { result ≡ ready_for cookie (Answer.Refused errno) }
{
    Served::Ready(Reply {
        cookie,
        answer: Answer::Refused(errno),
    })
}

// Gives a write request that passes judgement its place in the order, which isn't stopped, where no old byte that it takes is
// missing.
fn serve_held_edit<B: BoardName, T: Trust>(
    alloc: Global,
    request: Request,
    order: &mut Order<B>,
    board: &Board<B, T>,
    pass: &mut Pass<B>,
    terms: Terms,
) -> Result<Served, NeedsKeeper>
    requires write { is_write request ≡ true }
    requires range { IsServedRange request.head terms.geometry }
    requires works { order.old.stopped ≡ false }
    requires blocks { length order.old.cache.states ≡ terms.geometry.blocks }
    requires asked { T.logs → HasSent T.trusted T.image order.old request pass.old.client }
    ensures blocks { length order.new.cache.states ≡ length order.old.cache.states }
    ensures served { IfOk result (λ served. IsWriteServed request terms.geometry terms.mode (λ image. ShowsImage image order.old.cache) order.old order.new served) }
    ensures needs { IsErr result ↔ NeedsOld order.old (edit_asked request) }
    ensures handed_back { IfErr result (λ back. back.0 ≡ request) }
    ensures unchanged { OnErr result ((order.new ≡ order.old) × (pass.new ≡ pass.old)) }
    ensures pass { IfOk result (λ served. IsPassServed B.opening request order.old.mark order.new.mark served pass.old pass.new) }
    ensures client { IfOk result (λ served. IsClientServed T.mode request order.old.mark order.new.mark served pass.old.client pass.new.client) }
    ensures grown { order.old.mark < order.new.mark → pass.new.history ≡ order.new.history }
{
    let (head, edit) = split_request(request);
    if order.needs_device(&edit) {
        return Err(NeedsKeeper(join_request(alloc, head, edit)));
    }
    match order.accept_in_memory(board, pass, edit) {
        Ok(number) => Ok(answer_write(&head, terms.mode, number)),
        Err((OrderFault::NoRoom, edit)) => Ok(Served::NoRoom(join_request(alloc, head, edit))),
        Err((OrderFault::NoMemory, _)) => Ok(refuse(head.cookie, Errno::NoMemory)),
        Err((OrderFault::NumbersFull, _)) => Ok(refuse(head.cookie, Errno::NoSpace)),
        Err(_) => Ok(refuse(head.cookie, Errno::Io)),
    }
}

// Gives a write request that passes judgement its place in the order, which isn't stopped; old bytes that aren't in memory are
// read from the device.
fn serve_edit<B: BoardName, D: Disk, T: Trust>(
    alloc: Global,
    request: Request,
    order: &mut Order<B>,
    keeper: &mut Keeper<D>,
    board: &Board<B, T>,
    pass: &mut Pass<B>,
    terms: Terms,
) -> Served
    requires write { is_write request ≡ true }
    requires range { IsServedRange request.head terms.geometry }
    requires works { order.old.stopped ≡ false }
    requires blocks { length order.old.cache.states ≡ terms.geometry.blocks }
    requires device { terms.geometry ≡ keeper.old.geometry }
    requires needs { NeedsOld order.old (edit_asked request) }
    requires asked { T.logs → HasSent T.trusted T.image order.old request pass.old.client }
    requires known { T.logs → T.trusted → keeper.old.failed ≡ false → IsKnownBy D.state D.honest keeper.old order.old (apply_all order.old.history T.image) }
    ensures blocks { length order.new.cache.states ≡ length order.old.cache.states }
    ensures geometry { keeper.new.geometry ≡ keeper.old.geometry }
    ensures count { keeper.new.count ≡ keeper.old.count }
    ensures extent { D.extent keeper.new.disk ≡ D.extent keeper.old.disk }
    ensures honest { D.honest keeper.new.disk ↔ D.honest keeper.old.disk }
    ensures asked { IsWriteAsked D.state D.faults D.honest request terms.geometry terms.mode order.old order.new keeper.old keeper.new result }
    ensures pass { IsPassServed B.opening request order.old.mark order.new.mark result pass.old pass.new }
    ensures client { IsClientServed T.mode request order.old.mark order.new.mark result pass.old.client pass.new.client }
    ensures grown { order.old.mark < order.new.mark → pass.new.history ≡ order.new.history }
{
    let (head, edit) = split_request(request);
    match order.accept_edit(keeper, board, pass, edit) {
        Ok(number) => answer_write(&head, terms.mode, number),
        Err((OrderFault::NoRoom, edit)) => Served::NoRoom(join_request(alloc, head, edit)),
        Err((OrderFault::NoMemory, _)) => refuse(head.cookie, Errno::NoMemory),
        Err((OrderFault::NumbersFull, _)) => refuse(head.cookie, Errno::NoSpace),
        // (Each has an arm, because a joined one tells the proof nothing of the fault.)
        Err((OrderFault::DeviceFault, _)) => stop_order(order, head.cookie),
        Err((OrderFault::Failed, _)) => stop_order(order, head.cookie),
        Err((OrderFault::Stopped, _)) => stop_order(order, head.cookie),
    }
}

// Stops the order, because a call of the device has failed: the answer is EIO.
fn stop_order<B: BoardName>(order: &mut Order<B>, cookie: u64) -> Served
    ensures order { order.new ≡ record order.old { stopped = true } }
    ensures answer { result ≡ ready_for cookie (Answer.Refused Errno.Io) }
{
    order.stop();
    refuse(cookie, Errno::Io)
}

// Whether the answer to a write command waits until it is durable: never in ordered.
fn waits(head: &RequestHead, mode: Mode) -> bool
    ensures { result ≡ waits_for_store mode (record { head = head.now; bytes = [] }) }
{
    let fua = CommandFlags::FUA.bits();
    match mode {
        Mode::Writethrough => true,
        Mode::Writeback => head.flags & fua == fua,
        Mode::Ordered => false,
    }
}

// What a FLUSH comes to whose pass was shown all of the order, up to this number: in ordered it waits for nothing.
fn answer_flush(head: &RequestHead, mode: Mode, last: u64) -> Served
    ensures { result ≡ served_after (flush_waits mode) head.now.cookie last }
{
    match mode {
        Mode::Writethrough => Served::Wait(last),
        Mode::Writeback => Served::Wait(last),
        Mode::Ordered => answer_done(head),
    }
}

fn answer_done(head: &RequestHead) -> Served
    ensures { result ≡ ready_for head.now.cookie Answer.Done }
{
    Served::Ready(Reply {
        cookie: head.cookie,
        answer: Answer::Done,
    })
}

// What a write command comes to that has got this number.
fn answer_write(head: &RequestHead, mode: Mode, number: u64) -> Served
    ensures { result ≡ served_after (waits_for_store mode (record { head = head.now; bytes = [] })) head.now.cookie number }
{
    if waits(head, mode) {
        Served::Wait(number)
    } else {
        answer_done(head)
    }
}
