ghost use Rattle.std.specs.Prelude.{◌≡◌, ◌≤◌, ◌↔◌, None, Some, IfSome, length};
ghost use Rattle.export_steps.specs.inner.Steps.{IsAppended};
ghost use Rattle.export_steps.specs.Parts.{IsKeeperOf, IsOrderOf};
ghost use Rattle.export_steps.specs.inner.Storing.{PublishesBy, SealsBy, event_of, hand_after, order_after};
ghost use Rattle.export_model.specs.Serve.{Failure};
ghost use Rattle.export_model.specs.Step.{append as append_of};
ghost use Rattle.export_model.specs.World.{World};
ghost use Rattle.export_model.specs.Law.{IsWithin};
ghost use Rattle.order_book.specs.Order.{IsInHand};
ghost use Rattle.export_steps.specs.inner.Serving.{IsSameHand};

use checkpoint::{Keeper, KeeperFault};
use device_image::keeper_laws;
use disk_model::Disk;
use export_model::{Event, StepFault};
use journal::Group;
use marks::{Board, BoardName, KeeperSeat};
use order_book::Order;
use std::mem;

// Puts a group into an empty hand.
fn put_in_hand(hand: &mut Option<Group>, group: Group)
    ensures { hand.new ≡ Some group }
{
    if let Some(earlier) = mem::replace(hand, Some(group)) {
        let _parts = earlier.into_parts();
    }
}

// Takes the longest beginning of what is pending as the group in hand.
pub(crate) fn seal<B: BoardName>(hand: &mut Option<Group>, order: &mut Order<B>) -> Event
    requires { IfSome hand.old (IsInHand order.old) }
    ensures hand { IfSome hand.new (IsInHand order.new) }
    ensures blocks { length order.new.cache.states ≡ length order.old.cache.states }
    ensures cache { order.new.cache ≡ order.old.cache }
    ensures seals { SealsBy hand.old order.old order.new hand.new result }
{
    if hand.is_some() {
        return Event::Skipped;
    }
    match order.seal() {
        Ok(None) => Event::Skipped,
        Err(_) => Event::Failed(StepFault::NoMemory),
        Ok(Some(group)) => {
            put_in_hand(hand, group);
            Event::Took
        }
    }
}

// Stores the group in hand. If memory is refused it stays in hand; where it doesn't fit, and where the device fails
// or has failed, it is pending again.
pub(crate) fn append<B: BoardName, D: Disk>(
    hand: &mut Option<Group>,
    order: &mut Order<B>,
    keeper: &mut Keeper<D>,
) -> Event
    requires { IfSome hand.old (IsInHand order.old) }
    ensures hand { IfSome hand.new (IsInHand order.new) }
    ensures blocks { length order.new.cache.states ≡ length order.old.cache.states }
    ensures cache { order.new.cache ≡ order.old.cache }
    ensures geometry { keeper.new.geometry ≡ keeper.old.geometry }
    ensures count { keeper.old.count ≤ keeper.new.count }
    ensures extent { D.extent keeper.new.disk ≡ D.extent keeper.old.disk }
    ensures honest { D.honest keeper.new.disk ↔ D.honest keeper.old.disk }
    ensures world { (world : World) → IsWithin world → IsOrderOf world.stage order.old hand.old
        → IsKeeperOf world.stage keeper.old (D.faults keeper.old.disk)
        → (failure : Failure) × IsAppended world (append_of failure world) result order.new hand.new keeper.old keeper.new (D.faults keeper.new.disk)
        (D.honest keeper.old.disk) (D.state keeper.old.disk) (D.state keeper.new.disk) }
{
    keeper_laws::<D>();
    let Some(group) = hand.take() else {
        return Event::Skipped;
    };
    match keeper.append(group) {
        Ok(()) => Event::Took,
        Err((fault, group)) => give_back(hand, order, fault, group),
    }
}

// Takes back a group that the keeper refused: where memory was refused it stays in hand, else it is pending again, and
// after a device fault the order is stopped.
fn give_back<B: BoardName>(
    hand: &mut Option<Group>,
    order: &mut Order<B>,
    fault: KeeperFault,
    group: Group,
) -> Event
    requires empty { hand.old ≡ None }
    requires group { IsInHand order.old group }
    ensures event { result ≡ event_of fault }
    ensures order { order.new ≡ order_after fault order.old group }
    ensures hand { hand.new ≡ hand_after fault group }
{
    match fault {
        KeeperFault::NoMemory => {
            put_in_hand(hand, group);
            Event::Failed(StepFault::NoMemory)
        }
        KeeperFault::DeviceFault => {
            order.put_back(group);
            order.stop();
            Event::Failed(StepFault::DeviceFault)
        }
        KeeperFault::Failed => {
            order.put_back(group);
            Event::Failed(StepFault::FailedBefore)
        }
        KeeperFault::BadMap
        | KeeperFault::NoHeader
        | KeeperFault::BadHeader
        | KeeperFault::NumbersFull
        | KeeperFault::AreaFull
        | KeeperFault::OutOfOrder
        | KeeperFault::DamagedGroup
        | KeeperFault::NotNow
        | KeeperFault::AreaSmall => {
            order.put_back(group);
            Event::Skipped
        }
    }
}

// Makes durable what is stored, on the board too.
pub(crate) fn publish<B: BoardName, D: Disk>(
    order: &mut Order<B>,
    keeper: &Keeper<D>,
    board: &Board<B>,
    seat: &mut KeeperSeat<B>,
) -> Event
    ensures hand { IsSameHand order.old order.new }
    ensures blocks { length order.new.cache.states ≡ length order.old.cache.states }
    ensures cache { order.new.cache ≡ order.old.cache }
    ensures publishes { PublishesBy keeper.now.count order.old order.new result }
    ensures stored { seat.old.durable ≤ keeper.now.count → seat.new.durable ≤ keeper.now.count }
{
    if order.durable() >= keeper.count() {
        return Event::Skipped;
    }
    order.publish(board, seat, keeper);
    Event::Took
}
