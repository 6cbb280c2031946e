ghost use Rattle.std.specs.Prelude.{◌≡◌, ◌≢◌, ◌<◌, ◌↔◌, IfSome, IfNone, Option, Result, length, slice_index_or, slice_set, vec_len};
ghost use Rattle.nbd_wire.specs.declared.error.Errno.{Errno};
ghost use Rattle.order_book.specs.Order.{IsInHand};
ghost use Rattle.export_model.specs.Serve.{Failure, serve as serve_of};
ghost use Rattle.export_model.specs.Verdict.{verdict};
ghost use Rattle.export_model.specs.World.{World};
ghost use Rattle.export_model.specs.declared.action.Action.{Action};
ghost use Rattle.export_model.specs.declared.connection.Connection.TheVariants as Connection;
ghost use Rattle.export_model.specs.Law.{IsWithin};
ghost use Rattle.export_steps.specs.Bench.{is_idle, sent_state};
ghost use Rattle.export_steps.specs.Parts.{AreConnectionsOf, IsKeeperOf, IsOrderOf};
ghost use Rattle.export_steps.specs.inner.Outcomes.{IsServedWith};
ghost use Rattle.export_steps.specs.inner.Serving.{AreTermsOf, IsAnsweredBy, IsSentBy, answer_due, event_for, request_in, state_of};
ghost use Rattle.export_steps.specs.inner.Steps.{IsAnyServed, IsAnyTalked, IsSure};

use crate::checkpointing::stop;
use checkpoint::Keeper;
use disk_model::Disk;
use export_model::{Connection, Event, StepFault};
use journal::Group;
use marks::{Board, BoardName, Pass};
use nbd_wire::{Answer, DISCONNECT, Errno, Request};
use order_book::Order;
use request_core::{Served, Terms, serve_with_keeper};
use std::alloc::Global;
use std::mem;

// Whether a connection has no request open.
fn is_idle(states: &[Connection], connection: usize) -> bool
    ensures { result ≡ is_idle (slice_index_or states.now connection Connection.Closed) }
{
    if connection >= states.len() {
        return false;
    }
    match &states[connection] {
        Connection::Idle => true,
        Connection::Requested(_)
        | Connection::Waiting(_)
        | Connection::Ready(_)
        | Connection::Closed => false,
    }
}

// A connection sends a request, where it has none open; else the request is let go.
pub(crate) fn send_owned(states: &mut Vec<Connection>, connection: usize, request: Request) -> bool
    ensures sent { result ≡ is_idle (slice_index_or states.old.items connection Connection.Closed) }
    ensures states { states.new.items ≡ sent_state states.old.items connection request }
    ensures size { vec_len states.new ≡ vec_len states.old }
{
    if !is_idle(states, connection) {
        return false;
    }
    states[connection] = Connection::Requested(request);
    true
}

// A connection sends a copy of a request, and another goes into the event.
pub(crate) fn send(
    alloc: Global,
    states: &mut Vec<Connection>,
    connection: usize,
    request: &Request,
) -> Event
    ensures sent { IsSentBy states.old.items connection request.now states.new.items result }
    ensures size { vec_len states.new ≡ vec_len states.old }
{
    if !is_idle(states, connection) {
        return Event::Skipped;
    }
    let (Ok(sent), Ok(copy)) = (request.try_clone(alloc), request.try_clone(alloc)) else {
        return Event::Failed(StepFault::NoMemory);
    };
    states[connection] = Connection::Requested(sent);
    Event::Sent(connection, copy)
}

// Serves the request of a connection, where it has sent one that wasn't served yet.
pub(crate) fn serve<B: BoardName, D: Disk>(
    alloc: Global,
    states: &mut Vec<Connection>,
    passes: &mut Vec<Pass<B>>,
    connection: usize,
    hand: &mut Option<Group>,
    order: &mut Order<B>,
    keeper: &mut Keeper<D>,
    board: &Board<B>,
    terms: Terms,
) -> Event
    requires passes { vec_len passes.old ≡ vec_len states.old }
    requires hand { IfSome hand.old (IsInHand order.old) }
    requires blocks { length order.old.cache.states ≡ terms.geometry.blocks }
    requires device { terms.geometry ≡ keeper.old.geometry }
    ensures size { vec_len states.new ≡ vec_len states.old }
    ensures passes { vec_len passes.new ≡ vec_len passes.old }
    ensures hand { IfSome hand.new (IsInHand order.new) }
    ensures blocks { length order.new.cache.states ≡ length order.old.cache.states }
    ensures geometry { keeper.new.geometry ≡ keeper.old.geometry }
    ensures count { keeper.new.count ≡ keeper.old.count }
    ensures extent { D.extent keeper.new.disk ≡ D.extent keeper.old.disk }
    ensures honest { D.honest keeper.new.disk ↔ D.honest keeper.old.disk }
    ensures world { (world : World) → IsWithin world → IsOrderOf world.stage order.old hand.old → IsKeeperOf world.stage keeper.old (D.faults keeper.old.disk)
        → AreTermsOf world terms.geometry terms.flags terms.mode → AreConnectionsOf world states.old.items
        → IsSure world order.old keeper.old (D.honest keeper.old.disk) (D.state keeper.old.disk)
        → (failure : Failure) × IsAnyTalked world (serve_of failure world connection (world.connections connection)) states.new.items result order.old order.new hand.old hand.new
        keeper.old keeper.new (D.faults keeper.new.disk) (D.honest keeper.old.disk) (D.state keeper.old.disk) (D.state keeper.new.disk) }
{
    let Some(request) = take_request(states, connection) else {
        return Event::Skipped;
    };
    let (state, event) = serve_request(
        alloc,
        connection,
        request,
        hand,
        order,
        keeper,
        board,
        &mut passes[connection],
        terms,
    );
    states[connection] = state;
    event
}

// Takes a request that a connection has sent and that wasn't served yet.
fn take_request(states: &mut Vec<Connection>, connection: usize) -> Option<Request>
    ensures request { result ≡ request_in (slice_index_or states.old.items connection Connection.Closed) }
    ensures within { IfSome result (λ request. connection < vec_len states.new) }
    ensures taken { IfSome result (λ request. states.new.items ≡ slice_set states.old.items connection Connection.Idle) }
    ensures none { IfNone result (states.new.items ≡ states.old.items) }
    ensures size { vec_len states.new ≡ vec_len states.old }
{
    if connection >= states.len() {
        return None;
    }
    match mem::replace(&mut states[connection], Connection::Idle) {
        Connection::Requested(request) => Some(request),
        other => {
            states[connection] = other;
            None
        }
    }
}

// What a connection comes to when its request is served, and the event.
fn serve_request<B: BoardName, D: Disk>(
    alloc: Global,
    connection: usize,
    request: Request,
    hand: &mut Option<Group>,
    order: &mut Order<B>,
    keeper: &mut Keeper<D>,
    board: &Board<B>,
    pass: &mut Pass<B>,
    terms: Terms,
) -> (Connection, Event)
    requires hand { IfSome hand.old (IsInHand order.old) }
    requires blocks { length order.old.cache.states ≡ terms.geometry.blocks }
    requires device { terms.geometry ≡ keeper.old.geometry }
    ensures hand { IfSome hand.new (IsInHand order.new) }
    ensures blocks { length order.new.cache.states ≡ length order.old.cache.states }
    ensures geometry { keeper.new.geometry ≡ keeper.old.geometry }
    ensures count { keeper.new.count ≡ keeper.old.count }
    ensures extent { D.extent keeper.new.disk ≡ D.extent keeper.old.disk }
    ensures honest { D.honest keeper.new.disk ↔ D.honest keeper.old.disk }
    ensures world { (world : World) → IsWithin world → IsOrderOf world.stage order.old hand.old → IsKeeperOf world.stage keeper.old (D.faults keeper.old.disk)
        → AreTermsOf world terms.geometry terms.flags terms.mode → world.connections connection ≡ Connection.Requested request
        → IsSure world order.old keeper.old (D.honest keeper.old.disk) (D.state keeper.old.disk)
        → (failure : Failure) × IsAnyServed world (serve_of failure world connection (Connection.Requested request)) connection result.0 result.1 order.old order.new hand.old hand.new
        keeper.old keeper.new (D.faults keeper.new.disk) (D.honest keeper.old.disk) (D.state keeper.old.disk) (D.state keeper.new.disk) }
{
    if request.head().kind == DISCONNECT {
        return (Connection::Closed, Event::Took);
    }
    let before = order.mark();
    let served = serve_or_stop(alloc, request, hand, order, keeper, board, pass, terms);
    let event = event_of(connection, before, order.mark(), &served);
    (state_of(served), event)
}

// Serves a request that isn't a DISC; where a call of the device fails in it the group in hand is pending again.
fn serve_or_stop<B: BoardName, D: Disk>(
    alloc: Global,
    request: Request,
    hand: &mut Option<Group>,
    order: &mut Order<B>,
    keeper: &mut Keeper<D>,
    board: &Board<B>,
    pass: &mut Pass<B>,
    terms: Terms,
) -> Served
    requires kind { request.head.kind ≢ 2 }
    requires hand { IfSome hand.old (IsInHand order.old) }
    requires blocks { length order.old.cache.states ≡ terms.geometry.blocks }
    requires device { terms.geometry ≡ keeper.old.geometry }
    ensures hand { IfSome hand.new (IsInHand order.new) }
    ensures blocks { length order.new.cache.states ≡ length order.old.cache.states }
    ensures geometry { keeper.new.geometry ≡ keeper.old.geometry }
    ensures count { keeper.new.count ≡ keeper.old.count }
    ensures extent { D.extent keeper.new.disk ≡ D.extent keeper.old.disk }
    ensures honest { D.honest keeper.new.disk ↔ D.honest keeper.old.disk }
    ensures serves { (given : Result Action Errno) × (given ≡ verdict request.head terms.geometry terms.flags)
        × IsServedWith D.state D.faults D.honest given request terms.geometry terms.mode order.old order.new keeper.old keeper.new hand.old hand.new result }
{
    let works = !order.is_stopped();
    let served = serve_with_keeper(alloc, request, order, keeper, board, pass, terms);
    if works && order.is_stopped() {
        stop(hand, order);
    }
    served
}

// The event of a request that was served, where the last number of the order went from `before` to `after`.
fn event_of(connection: usize, before: u64, after: u64, served: &Served) -> Event
    ensures { result ≡ event_for connection before after served.now }
{
    if before < after {
        return Event::Numbered(connection, after);
    }
    match served {
        Served::NoRoom(_) => Event::Skipped,
        Served::Ready(_) | Served::Wait(_) => Event::Took,
    }
}

// What a connection comes to whose request was served.
fn state_of(served: Served) -> Connection
    ensures { result ≡ state_of served }
{
    match served {
        Served::Ready(reply) => Connection::Ready(reply.answer),
        Served::Wait(number) => Connection::Waiting(number),
        Served::NoRoom(request) => Connection::Requested(request),
    }
}

// Answers a connection to which an answer is due.
pub(crate) fn answer<B: BoardName>(
    states: &mut Vec<Connection>,
    connection: usize,
    order: &Order<B>,
) -> Event
    ensures answered { IsAnsweredBy order.now.durable order.now.stopped states.old.items connection states.new.items result }
    ensures size { vec_len states.new ≡ vec_len states.old }
{
    if connection >= states.len() {
        return Event::Skipped;
    }
    match due(
        mem::replace(&mut states[connection], Connection::Idle),
        order,
    ) {
        Ok(answer) => Event::Answered(connection, answer),
        Err(state) => {
            states[connection] = state;
            Event::Skipped
        }
    }
}

// The answer that is due to a connection, or where none is its state again.
fn due<B: BoardName>(state: Connection, order: &Order<B>) -> Result<Answer, Connection>
    ensures { result ≡ answer_due order.now.durable order.now.stopped state }
{
    match state {
        Connection::Ready(answer) => Ok(answer),
        Connection::Waiting(number) => {
            if number <= order.durable() {
                Ok(Answer::Done)
            } else if order.is_stopped() {
                Ok(Answer::Refused(Errno::Io))
            } else {
                Err(Connection::Waiting(number))
            }
        }
        other => Err(other),
    }
}
