ghost use Rattle.std.specs.Prelude.{◌≡◌, ◌≢◌, ◌≤◌, ◌+◌, ◌↔◌, Bool, IfErr, IfOk, IfSome, MatchResult, length, replicate, slice_index_or};
ghost use Rattle.checkpoint.specs.Steps.{left_in};
ghost use Rattle.order_book.specs.Order.{IsInHand};
ghost use Rattle.export_steps.specs.Copies.{copied};
ghost use Rattle.export_steps.specs.Life.{IsStepped, Leads, Trusts};
ghost use Rattle.export_steps.specs.Parts.{AreConnectionsOf, IsExportOf, IsKeeperOf, IsOrderOf};
ghost use Rattle.export_steps.specs.Bench.{is_idle, sent_state};
ghost use Rattle.export_steps.specs.inner.Steps.{IsPerformed, IsSure};
ghost use Rattle.export_model.specs.Serve.{Failure};
ghost use Rattle.export_model.specs.Step.{after_step};
ghost use Rattle.export_model.specs.World.{World};
ghost use Rattle.export_model.specs.declared.connection.Connection.TheVariants as Connection;
ghost use Rattle.export_model.specs.declared.event.Event.TheVariants as Event;
ghost use Rattle.export_model.specs.declared.step.Step.TheVariants as Step;
ghost use Rattle.export_model.specs.Law.{IsWithin};

use crate::checkpointing::{clean, copy, finish, refused, rotate, write_map};
use crate::connections::Connections;
use crate::requests::{answer, send, send_owned, serve};
use crate::storing::{append, publish, seal};
use checkpoint::Keeper;
use device_image::keeper_laws;
use disk_model::Disk;
use export_model::{Event, Step, schedule_law};
use marks::{Board, BoardName, KeeperSeat};
use nbd_wire::Request;
use order_book::Order;
use request_core::Terms;
use std::alloc::Global;

impl<B: BoardName> Connections<B> {
    /// A connection sends a request without a copy, where it has none open; else the request is let go.
    pub fn send(&mut self, connection: usize, request: Request) -> bool
        ensures sent { result ≡ is_idle (slice_index_or self.old.states connection Connection.Closed) }
        ensures connections { self.new ≡ record self.old { states = sent_state self.old.states connection request } }
    {
        send_owned(&mut self.states, connection, request)
    }
}

/// Carries out one step, and gives its event.
///
/// A step whose condition doesn't hold changes nothing, but an `Append` of a group that doesn't fit the area puts it back. The
/// order and the keeper have to be of images with as many blocks.
pub fn take_step<B: BoardName, D: Disk>(
    alloc: Global,
    step: &Step,
    order: &mut Order<B>,
    keeper: &mut Keeper<D>,
    board: &Board<B>,
    seat: &mut KeeperSeat<B>,
    connections: &mut Connections<B>,
) -> Event
    requires group { IfSome connections.old.group (IsInHand order.old) }
    requires blocks { length order.old.cache.states ≡ keeper.old.geometry.blocks }
    ensures group { IfSome connections.new.group (IsInHand order.new) }
    ensures blocks { length order.new.cache.states ≡ length order.old.cache.states }
    ensures geometry { keeper.new.geometry ≡ keeper.old.geometry }
    ensures extent { D.extent keeper.new.disk ≡ D.extent keeper.old.disk }
    ensures honest { D.honest keeper.new.disk ↔ D.honest keeper.old.disk }
    ensures stored { seat.old.durable ≤ keeper.old.count → seat.new.durable ≤ keeper.new.count }

    // In each world that the parts are of the step leads to a next world, of which they then are; only what fails in it is free.
    ensures world { (world : World) (trusted : Bool) → IsExportOf world order.old keeper.old (D.faults keeper.old.disk) connections.old (Trusts trusted (D.honest keeper.old.disk)) (D.state keeper.old.disk)
        → (failure : Failure) × IsStepped world (after_step world step.now failure) result order.new keeper.new (D.faults keeper.new.disk) connections.new
        (Trusts trusted (D.honest keeper.new.disk)) (D.state keeper.old.disk) (D.state keeper.new.disk) }
{
    schedule_law();
    perform(alloc, step, order, keeper, board, seat, connections)
}

/// Copies the next blocks of the first of several areas into data, at most `most`, that follow one another in both, in one
/// read and one write of the device.
///
/// If it answers how many, these are as many steps `Copy`, in none of which anything fails; otherwise it is one step `Copy`,
/// whose event it gives.
pub fn copy_some<B: BoardName, D: Disk>(
    most: u32,
    order: &mut Order<B>,
    keeper: &mut Keeper<D>,
    connections: &mut Connections<B>,
) -> Result<u32, Event>
    requires most { 1 ≤ most }
    requires group { IfSome connections.old.group (IsInHand order.old) }
    ensures some { IfOk result (λ blocks. (1 ≤ blocks) × (blocks ≤ most)) }
    ensures fewer { IfOk result (λ blocks. left_in keeper.new.phase + blocks ≡ left_in keeper.old.phase) }
    ensures none { IfErr result (λ event. event ≢ Event.Took) }
    ensures group { IfSome connections.new.group (IsInHand order.new) }
    ensures blocks { length order.new.cache.states ≡ length order.old.cache.states }
    ensures geometry { keeper.new.geometry ≡ keeper.old.geometry }
    ensures count { keeper.new.count ≡ keeper.old.count }
    ensures extent { D.extent keeper.new.disk ≡ D.extent keeper.old.disk }
    ensures honest { D.honest keeper.new.disk ↔ D.honest keeper.old.disk }
    ensures world { (world : World) (trusted : Bool) → IsExportOf world order.old keeper.old (D.faults keeper.old.disk) connections.old (Trusts trusted (D.honest keeper.old.disk)) (D.state keeper.old.disk)
        → MatchResult result
        (λ blocks. Leads world (copied world blocks) (replicate blocks Step.Copy) order.new keeper.new (D.faults keeper.new.disk) connections.new
        (Trusts trusted (D.honest keeper.new.disk)) (D.state keeper.old.disk) (D.state keeper.new.disk))
        (λ event. (failure : Failure) × IsStepped world (after_step world Step.Copy failure) event order.new keeper.new (D.faults keeper.new.disk) connections.new
        (Trusts trusted (D.honest keeper.new.disk)) (D.state keeper.old.disk) (D.state keeper.new.disk)) }
{
    schedule_law();
    keeper_laws::<D>();
    match keeper.copy_some(most) {
        Ok(blocks) => Ok(blocks),
        Err(fault) => Err(refused(&mut connections.group, order, fault)),
    }
}

// Carries out one step, and gives its event.
fn perform<B: BoardName, D: Disk>(
    alloc: Global,
    step: &Step,
    order: &mut Order<B>,
    keeper: &mut Keeper<D>,
    board: &Board<B>,
    seat: &mut KeeperSeat<B>,
    connections: &mut Connections<B>,
) -> Event
    requires group { IfSome connections.old.group (IsInHand order.old) }
    requires blocks { length order.old.cache.states ≡ keeper.old.geometry.blocks }
    ensures group { IfSome connections.new.group (IsInHand order.new) }
    ensures blocks { length order.new.cache.states ≡ length order.old.cache.states }
    ensures geometry { keeper.new.geometry ≡ keeper.old.geometry }
    ensures stored { seat.old.durable ≤ keeper.old.count → seat.new.durable ≤ keeper.new.count }
    ensures connections { (connections.new.flags ≡ connections.old.flags) × (connections.new.mode ≡ connections.old.mode) }
    ensures extent { D.extent keeper.new.disk ≡ D.extent keeper.old.disk }
    ensures honest { D.honest keeper.new.disk ↔ D.honest keeper.old.disk }
    ensures world { (world : World) → IsWithin world → IsOrderOf world.stage order.old connections.old.group
        → IsKeeperOf world.stage keeper.old (D.faults keeper.old.disk) → AreConnectionsOf world connections.old.states
        → connections.old.flags ≡ world.stage.setting.flags → connections.old.mode ≡ world.stage.setting.mode
        → IsSure world order.old keeper.old (D.honest keeper.old.disk) (D.state keeper.old.disk)
        → (failure : Failure) × IsPerformed world (after_step world step.now failure) result order.old order.new connections.new keeper.old keeper.new (D.faults keeper.new.disk)
        (D.honest keeper.old.disk) (D.state keeper.old.disk) (D.state keeper.new.disk) }
{
    let terms = Terms {
        geometry: keeper.geometry(),
        flags: connections.flags,
        mode: connections.mode,
    };
    match step {
        Step::Send(connection, request) => send(
            alloc,
            &mut connections.states,
            *connection,
            request,
        ),
        Step::Serve(connection) => serve(
            alloc,
            &mut connections.states,
            &mut connections.passes,
            *connection,
            &mut connections.group,
            order,
            keeper,
            board,
            terms,
        ),
        Step::Answer(connection) => answer(&mut connections.states, *connection, order),
        Step::Seal => seal(&mut connections.group, order),
        Step::Append => append(&mut connections.group, order, keeper),
        Step::Publish => publish(order, keeper, board, seat),
        Step::Rotate => rotate(&mut connections.group, order, keeper),
        Step::Copy => copy(&mut connections.group, order, keeper),
        Step::Map => write_map(&mut connections.group, order, keeper),
        Step::Finish => finish(&mut connections.group, order, keeper),
        Step::Clean => clean(order, keeper),
    }
}
