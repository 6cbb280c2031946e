ghost use Rattle.std.specs.Prelude.{◌≡◌, ◌≤◌, ◌↔◌, ℕ, Bool, IfOk, IfSome, MatchOption, OnErr, OnOk, length, take, vec_len};
ghost use Rattle.order_book.specs.Order.{IsInHand, with_group};
ghost use Rattle.export_steps.specs.Bench.{new_bench};
ghost use Rattle.export_steps.specs.Life.{IsRehearsed, IsStepped, Trusts};
ghost use Rattle.export_steps.specs.Parts.{IsWorldOf};
ghost use Rattle.export_model.specs.Serve.{Failure};
ghost use Rattle.export_model.specs.Step.{after_step};
ghost use Rattle.export_model.specs.World.{World};
ghost use Rattle.export_model.specs.declared.event.Event.{Event};

use crate::connections::Connections;
use crate::engine::take_step;
use checkpoint::Keeper;
use disk_model::Disk;
use export_model::{Event, Mode, Step, schedule_law};
use marks::{Board, BoardName, KeeperSeat, Pass};
use nbd_wire::SessionFlags;
use order_book::Order;
use std::alloc::{AllocError, Global};
use std::marker::Model;

/// The connections of a rehearsal, and the log of what its steps did.
///
/// A bench can't be let go, because a group may be in hand: it is spent by `close`.
pub struct Bench<B: BoardName> {
    alloc: Global,
    connections: Connections<B>,
    log: Vec<Event>,
}

impl<B: BoardName> Model for Bench<B> {
    ghost use Rattle.export_steps.specs.Bench.{BenchState};

    ghost Value = { BenchState };

    ghost view = { λ bench. record { connections = bench.connections; log = bench.log.items } };
}

impl<B: BoardName> Bench<B> {
    /// A bench of a connection for each pass, none of which has sent a request. Refusal 0 (no memory).
    pub fn new(
        alloc: Global,
        passes: Vec<Pass<B>>,
        flags: SessionFlags,
        mode: Mode,
    ) -> Result<Bench<B>, AllocError>
        ensures { IfOk result (λ bench. bench ≡ new_bench (vec_len passes) flags mode) }
    {
        Ok(Bench {
            alloc,
            connections: Connections::new(alloc, passes, flags, mode)?,
            log: Vec::new(alloc),
        })
    }

    /// What each step did, the first of them first.
    pub fn log(&self) -> &[Event]
        ensures { result.now ≡ self.now.log }
    {
        &self.log
    }

    /// Puts a group in hand back into the order, and gives the log.
    pub fn close(self, order: &mut Order<B>) -> Vec<Event>
        requires { IfSome self.connections.group (IsInHand order.old) }
        ensures log { result.items ≡ self.log }
        ensures order { MatchOption self.connections.group (order.new ≡ order.old) (λ group. order.new ≡ with_group order.old group) }
    {
        let Bench {
            alloc: _,
            connections,
            log,
        } = self;
        connections.close(order);
        log
    }
}

/// Carries out the steps, and adds what each did to the bench's log.
///
/// A step whose condition doesn't hold changes nothing, but an `Append` of a group that doesn't fit the area puts it
/// back. The one refusal is 0 (no memory), where the log can't grow: the steps before it are done and stand in the log, and the
/// others changed nothing. The order and the keeper have to be of images with as many blocks.
pub fn rehearse<B: BoardName, D: Disk>(
    steps: &[Step],
    order: &mut Order<B>,
    keeper: &mut Keeper<D>,
    board: &Board<B>,
    seat: &mut KeeperSeat<B>,
    bench: &mut Bench<B>,
) -> Result<(), AllocError>
    requires group { IfSome bench.old.connections.group (IsInHand order.old) }
    requires blocks { length order.old.cache.states ≡ keeper.old.geometry.blocks }
    ensures group { IfSome bench.new.connections.group (IsInHand order.new) }
    ensures blocks { length order.new.cache.states ≡ length order.old.cache.states }
    ensures geometry { keeper.new.geometry ≡ keeper.old.geometry }
    ensures extent { D.extent keeper.new.disk ≡ D.extent keeper.old.disk }
    ensures honest { D.honest keeper.new.disk ↔ D.honest keeper.old.disk }
    ensures stored { seat.old.durable ≤ keeper.old.count → seat.new.durable ≤ keeper.new.count }

    // For each world that the parts are of: some first steps, at `Ok` all of them, lead to a next world that they are
    // then of, and the log is legal. On an honest device all that is covered is kept by every crash: what was covered at
    // the start since then, and what is covered at the end from then on.
    ensures world { (world : World) (trusted : Bool) → IsWorldOf world order.old keeper.old (D.faults keeper.old.disk) bench.old (Trusts trusted (D.honest keeper.old.disk)) (D.state keeper.old.disk)
        → (next : World) × (done : ℕ) × (done ≤ length steps.now) × OnOk result (done ≡ length steps.now)
        × IsRehearsed world next (take done steps.now) order.new keeper.new (D.faults keeper.new.disk) bench.new
        (Trusts trusted (D.honest keeper.new.disk)) (D.state keeper.old.disk) (D.state keeper.new.disk) }
{
    schedule_law();
    for step in steps {
        carry_out(step, order, keeper, board, seat, bench)?;
    }
    Ok(())
}

// Carries out one step, with room in the log made for its event first; where there is none nothing has changed.
fn carry_out<B: BoardName, D: Disk>(
    step: &Step,
    order: &mut Order<B>,
    keeper: &mut Keeper<D>,
    board: &Board<B>,
    seat: &mut KeeperSeat<B>,
    bench: &mut Bench<B>,
) -> Result<(), AllocError>
    requires group { IfSome bench.old.connections.group (IsInHand order.old) }
    requires blocks { length order.old.cache.states ≡ keeper.old.geometry.blocks }
    ensures group { IfSome bench.new.connections.group (IsInHand order.new) }
    ensures blocks { length order.new.cache.states ≡ length order.old.cache.states }
    ensures geometry { keeper.new.geometry ≡ keeper.old.geometry }
    ensures err { OnErr result ((order.new ≡ order.old) × (keeper.new ≡ keeper.old) × (bench.new ≡ bench.old)) }
    ensures extent { D.extent keeper.new.disk ≡ D.extent keeper.old.disk }
    ensures honest { D.honest keeper.new.disk ↔ D.honest keeper.old.disk }
    ensures stored { seat.old.durable ≤ keeper.old.count → seat.new.durable ≤ keeper.new.count }
    ensures world { (world : World) (trusted : Bool) → IsWorldOf world order.old keeper.old (D.faults keeper.old.disk) bench.old (Trusts trusted (D.honest keeper.old.disk)) (D.state keeper.old.disk)
        → OnOk result ((failure : Failure) × (event : Event) × (bench.new.log ≡ (after_step world step.now failure).log)
        × IsStepped world (after_step world step.now failure) event order.new keeper.new (D.faults keeper.new.disk) bench.new.connections
        (Trusts trusted (D.honest keeper.new.disk)) (D.state keeper.old.disk) (D.state keeper.new.disk)) }
{
    let place = bench.log.len();
    bench.log.push(Event::Skipped)?;
    let event = take_step(
        bench.alloc,
        step,
        order,
        keeper,
        board,
        seat,
        &mut bench.connections,
    );
    bench.log[place] = event;
    Ok(())
}
