//! The steps of a checkpoint, and of letting frames go.
ghost use Rattle.std.specs.Prelude.{◌≡◌, ◌↔◌, IfSome, None, length};
ghost use Rattle.image_model.specs.Image.{Image};
ghost use Rattle.order_book.specs.Shown.{ShowsImage};
ghost use Rattle.order_book.specs.Order.{IsInHand};
ghost use Rattle.export_steps.specs.Parts.{IsKeeperOf, IsOrderOf};
ghost use Rattle.export_steps.specs.inner.Serving.{IsSameHand};
ghost use Rattle.export_steps.specs.inner.Steps.{IsAppended};
ghost use Rattle.export_steps.specs.inner.Storing.{CleansBy, hand_refused, order_refused, step_event, stopped_with};
ghost use Rattle.export_model.specs.Serve.{Failure};
ghost use Rattle.export_model.specs.Step.{copy_block as copy_of, finish as finish_of, rotate as rotate_of, write_map as map_of};
ghost use Rattle.export_model.specs.World.{World};
ghost use Rattle.export_model.specs.Law.{IsWithin};

use checkpoint::{Keeper, KeeperFault};
use device_image::keeper_laws;
use disk_model::Disk;
use export_model::{Event, StepFault};
use journal::Group;
use marks::BoardName;
use order_book::Order;

// Takes the next area into use.
pub(crate) fn rotate<B: BoardName, D: Disk>(
    hand: &mut Option<Group>,
    order: &mut Order<B>,
    keeper: &mut Keeper<D>,
) -> Event
    requires { IfSome hand.old (IsInHand order.old) }
    ensures hand { IfSome hand.new (IsInHand order.new) }
    ensures blocks { length order.new.cache.states ≡ length order.old.cache.states }
    ensures cache { order.new.cache ≡ order.old.cache }
    ensures geometry { keeper.new.geometry ≡ keeper.old.geometry }
    ensures count { keeper.new.count ≡ keeper.old.count }
    ensures extent { D.extent keeper.new.disk ≡ D.extent keeper.old.disk }
    ensures honest { D.honest keeper.new.disk ↔ D.honest keeper.old.disk }
    ensures world { (world : World) → IsWithin world → IsOrderOf world.stage order.old hand.old
        → IsKeeperOf world.stage keeper.old (D.faults keeper.old.disk)
        → (failure : Failure) × IsAppended world (rotate_of failure world) result order.new hand.new keeper.old keeper.new (D.faults keeper.new.disk)
        (D.honest keeper.old.disk) (D.state keeper.old.disk) (D.state keeper.new.disk) }
{
    keeper_laws::<D>();
    match keeper.rotate() {
        Ok(()) => Event::Took,
        Err(fault) => refused(hand, order, fault),
    }
}

// Copies one block of the first of several areas into data.
pub(crate) fn copy<B: BoardName, D: Disk>(
    hand: &mut Option<Group>,
    order: &mut Order<B>,
    keeper: &mut Keeper<D>,
) -> Event
    requires { IfSome hand.old (IsInHand order.old) }
    ensures hand { IfSome hand.new (IsInHand order.new) }
    ensures blocks { length order.new.cache.states ≡ length order.old.cache.states }
    ensures cache { order.new.cache ≡ order.old.cache }
    ensures geometry { keeper.new.geometry ≡ keeper.old.geometry }
    ensures count { keeper.new.count ≡ keeper.old.count }
    ensures extent { D.extent keeper.new.disk ≡ D.extent keeper.old.disk }
    ensures honest { D.honest keeper.new.disk ↔ D.honest keeper.old.disk }
    ensures world { (world : World) → IsWithin world → IsOrderOf world.stage order.old hand.old
        → IsKeeperOf world.stage keeper.old (D.faults keeper.old.disk)
        → (failure : Failure) × IsAppended world (copy_of failure world) result order.new hand.new keeper.old keeper.new (D.faults keeper.new.disk)
        (D.honest keeper.old.disk) (D.state keeper.old.disk) (D.state keeper.new.disk) }
{
    keeper_laws::<D>();
    match keeper.copy_one() {
        Ok(()) => Event::Took,
        Err(fault) => refused(hand, order, fault),
    }
}

// Writes the map after the first of several areas.
pub(crate) fn write_map<B: BoardName, D: Disk>(
    hand: &mut Option<Group>,
    order: &mut Order<B>,
    keeper: &mut Keeper<D>,
) -> Event
    requires { IfSome hand.old (IsInHand order.old) }
    ensures hand { IfSome hand.new (IsInHand order.new) }
    ensures blocks { length order.new.cache.states ≡ length order.old.cache.states }
    ensures cache { order.new.cache ≡ order.old.cache }
    ensures geometry { keeper.new.geometry ≡ keeper.old.geometry }
    ensures count { keeper.new.count ≡ keeper.old.count }
    ensures extent { D.extent keeper.new.disk ≡ D.extent keeper.old.disk }
    ensures honest { D.honest keeper.new.disk ↔ D.honest keeper.old.disk }
    ensures world { (world : World) → IsWithin world → IsOrderOf world.stage order.old hand.old
        → IsKeeperOf world.stage keeper.old (D.faults keeper.old.disk)
        → (failure : Failure) × IsAppended world (map_of failure world) result order.new hand.new keeper.old keeper.new (D.faults keeper.new.disk)
        (D.honest keeper.old.disk) (D.state keeper.old.disk) (D.state keeper.new.disk) }
{
    keeper_laws::<D>();
    match keeper.write_map() {
        Ok(()) => Event::Took,
        Err(fault) => refused(hand, order, fault),
    }
}

// Lets the first of several areas go.
pub(crate) fn finish<B: BoardName, D: Disk>(
    hand: &mut Option<Group>,
    order: &mut Order<B>,
    keeper: &mut Keeper<D>,
) -> Event
    requires { IfSome hand.old (IsInHand order.old) }
    ensures hand { IfSome hand.new (IsInHand order.new) }
    ensures blocks { length order.new.cache.states ≡ length order.old.cache.states }
    ensures cache { order.new.cache ≡ order.old.cache }
    ensures geometry { keeper.new.geometry ≡ keeper.old.geometry }
    ensures count { keeper.new.count ≡ keeper.old.count }
    ensures extent { D.extent keeper.new.disk ≡ D.extent keeper.old.disk }
    ensures honest { D.honest keeper.new.disk ↔ D.honest keeper.old.disk }
    ensures world { (world : World) → IsWithin world → IsOrderOf world.stage order.old hand.old
        → IsKeeperOf world.stage keeper.old (D.faults keeper.old.disk)
        → (failure : Failure) × IsAppended world (finish_of failure world) result order.new hand.new keeper.old keeper.new (D.faults keeper.new.disk)
        (D.honest keeper.old.disk) (D.state keeper.old.disk) (D.state keeper.new.disk) }
{
    keeper_laws::<D>();
    match keeper.finish() {
        Ok(()) => Event::Took,
        Err(fault) => refused(hand, order, fault),
    }
}

// The event of a step that the keeper refused. A fault of the device stops the order, and a group in hand is pending again.
pub(crate) fn refused<B: BoardName>(
    hand: &mut Option<Group>,
    order: &mut Order<B>,
    fault: KeeperFault,
) -> Event
    requires { IfSome hand.old (IsInHand order.old) }
    ensures event { result ≡ step_event fault }
    ensures order { order.new ≡ order_refused fault hand.old order.old }
    ensures cache { order.new.cache ≡ order.old.cache }
    ensures hand { hand.new ≡ hand_refused fault hand.old }
{
    match fault {
        KeeperFault::NoMemory => Event::Failed(StepFault::NoMemory),
        KeeperFault::DeviceFault => {
            stop(hand, order);
            Event::Failed(StepFault::DeviceFault)
        }
        KeeperFault::NumbersFull => Event::Failed(StepFault::NumbersFull),
        KeeperFault::Failed => Event::Failed(StepFault::FailedBefore),
        KeeperFault::BadMap
        | KeeperFault::NoHeader
        | KeeperFault::BadHeader
        | KeeperFault::AreaFull
        | KeeperFault::OutOfOrder
        | KeeperFault::DamagedGroup
        | KeeperFault::NotNow
        | KeeperFault::AreaSmall => Event::Skipped,
    }
}

// Stops the order, with a group in hand put back.
pub(crate) fn stop<B: BoardName>(hand: &mut Option<Group>, order: &mut Order<B>)
    requires { IfSome hand.old (IsInHand order.old) }
    ensures order { order.new ≡ stopped_with hand.old order.old }
    ensures cache { order.new.cache ≡ order.old.cache }
    ensures hand { hand.new ≡ None }
{
    match hand.take() {
        Some(group) => {
            order.put_back(group);
            order.stop();
        }
        None => order.stop(),
    }
}

// Lets go of the frames of dirty blocks that map and data hold.
pub(crate) fn clean<B: BoardName, D: Disk>(order: &mut Order<B>, keeper: &Keeper<D>) -> Event
    ensures hand { IsSameHand order.old order.new }
    ensures blocks { length order.new.cache.states ≡ length order.old.cache.states }
    ensures image { (image : Image) → ShowsImage image order.old.cache → ShowsImage image order.new.cache }
    ensures cleans { CleansBy keeper.now.base order.old order.new result }
{
    if order.clean(keeper) {
        Event::Took
    } else {
        Event::Skipped
    }
}
