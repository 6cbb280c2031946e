ghost use Rattle.std.specs.Prelude.{◌≡◌, ◌≤◌, ◌+◌, ◌↔◌, ◌++◌, Bool, [], ◌∷◌, length, IfErr, IfOk, IfSome, IsTrue, MatchBool, MatchOption, MatchResult, OnOk};
ghost use Rattle.checkpoint.specs.Steps.{left_in};
ghost use Rattle.nbd_wire.specs.Request.{Message};
ghost use Rattle.nbd_wire.specs.declared.head.RequestHead.{RequestHead};
ghost use Rattle.nbdj_pipe.specs.Causes.{HasCause};
ghost use Rattle.nbdj_pipe.specs.inner.Causes.{LacksRoom};
ghost use Rattle.nbdj_pipe.specs.inner.Checkpoint.{EndsBy, HasCopiedAll, HasFinished, IsCopied, IsDone, IsEmptied, IsFinished, OrStopped};
ghost use Rattle.nbdj_pipe.specs.inner.Export.{AwaitsAnswer, CameTo, Follows, GetsOn, HasAnswer, IsGiven, IsJudged, IsOfKind, IsSettled, IsStoring, IsWaiting, Settles, StoredBy, said_of, told, told_by};
ghost use Rattle.nbdj_pipe.specs.inner.Refusals.{IsOfExport};
ghost use Rattle.nbdj_pipe.specs.Talk.{plain, spoken, verdict_on};
ghost use Rattle.order_book.specs.Order.{IsInHand};
ghost use Rattle.export_steps.specs.Life.{Trusts};
ghost use Rattle.export_steps.specs.Parts.{IsExportOf};
ghost use Rattle.export_model.specs.Serve.{Failure};
ghost use Rattle.export_model.specs.Step.{after_step};
ghost use Rattle.export_model.specs.World.{World};
ghost use Rattle.export_model.specs.declared.connection.Connection.TheVariants as Connection;
ghost use Rattle.export_model.specs.declared.event.Event.TheVariants as Event;

use checkpoint::Keeper;
use disk_model::Disk;
use export_model::schedule_law;
use export_steps::{Connections, Event, Step, StepFault, copy_some, leads_law, take_step};
use front_end::Refusal;
use marks::{Board, BoardName, KeeperSeat};
use nbd_wire::{Answer, DISCONNECT, Request};
use order_book::Order;
use std::alloc::Global;

// The most blocks that are copied at once: 1 MiB.
const MOST_COPIED: u32 = 256;

// Whether a group fits the area, by the events of sealing it, appending it and publishing it. After a fault of the device
// nothing is refused: the order is stopped, and answers tell of it.
fn fits_area(sealed: &Event, appended: &Event, published: &Event) -> Result<bool, Refusal>
    ensures early { IfErr result IsOfExport }
    ensures events { StoredBy sealed.now appended.now published.now result }
{
    if let Event::Failed(_) = sealed {
        return Err(Refusal::NoMemory);
    }
    match appended {
        Event::Failed(fault) => match fault {
            StepFault::NoMemory => Err(Refusal::NoMemory),
            StepFault::DeviceFault | StepFault::NumbersFull | StepFault::FailedBefore => Ok(true),
        },
        // Nothing was stored now, and nothing earlier that wasn't published: the group doesn't fit.
        Event::Skipped => match published {
            Event::Skipped => Ok(false),
            _ => Ok(true),
        },
        _ => Ok(true),
    }
}

// Whether a checkpoint goes on after a step with this event.
fn goes_on_after(event: &Event) -> Result<(), Refusal>
    ensures { EndsBy event.now result }
{
    match event {
        Event::Failed(fault) => match fault {
            StepFault::NoMemory => Err(Refusal::NoMemory),
            StepFault::NumbersFull => Err(Refusal::NumbersFull),
            StepFault::DeviceFault | StepFault::FailedBefore => Ok(()),
        },
        _ => Ok(()),
    }
}

// A function of its own, it is proved once, and not variant by variant wherever an event is let go.
fn let_go(_event: Event) {}

// Says what the proof of serving takes from a request's invariant: its data are 1 MiB at most.
fn few_bytes(request: &Request)
    ensures { length request.now.bytes ≤ 1048576 }
{
    request.bytes();
}

/// An export with one connection, which is served step by step. It is spent by `into_disk`, because a group may be in
/// hand.
pub(crate) struct Export<B: BoardName, D: Disk> {
    pub(crate) alloc: Global,
    pub(crate) board: Board<B>,
    pub(crate) order: Order<B>,
    pub(crate) seat: KeeperSeat<B>,
    pub(crate) keeper: Keeper<D>,
    pub(crate) connections: Connections<B>,
    ghost blocks: { length order.cache.states ≡ keeper.geometry.blocks },
}

impl<B: BoardName, D: Disk> Export<B, D> {
    /// Carries out one step.
    pub(crate) fn step(&mut self, step: Step) -> Event
        requires group { IfSome self.old.connections.group (IsInHand self.old.order) }
        ensures group { IfSome self.new.connections.group (IsInHand self.new.order) }
        ensures extent { D.extent self.new.keeper.disk ≡ D.extent self.old.keeper.disk }
        ensures honest { D.honest self.new.keeper.disk ↔ D.honest self.old.keeper.disk }
        ensures world { (world : World) (trusted : Bool) → IsExportOf world self.old.order self.old.keeper (D.faults self.old.keeper.disk) self.old.connections (Trusts trusted (D.honest self.old.keeper.disk)) (D.state self.old.keeper.disk)
            → (failure : Failure) × ((after_step world step failure).log ≡ world.log ++ result ∷ [])
            × Follows world (after_step world step failure) (spoken (result ∷ [])) self.new.order self.new.keeper (D.faults self.new.keeper.disk) self.new.connections
            (Trusts trusted (D.honest self.new.keeper.disk)) (D.state self.old.keeper.disk) (D.state self.new.keeper.disk) }
    {
        leads_law::<D>();
        schedule_law();
        take_step(
            self.alloc,
            &step,
            &mut self.order,
            &mut self.keeper,
            &self.board,
            &mut self.seat,
            &mut self.connections,
        )
    }

    // Carries out a step of order and keeper alone.
    fn store_step(&mut self, step: Step) -> Event
        requires storing { IsStoring step }
        requires group { IfSome self.old.connections.group (IsInHand self.old.order) }
        ensures group { IfSome self.new.connections.group (IsInHand self.new.order) }
        ensures extent { D.extent self.new.keeper.disk ≡ D.extent self.old.keeper.disk }
        ensures honest { D.honest self.new.keeper.disk ↔ D.honest self.old.keeper.disk }
        ensures world { (world : World) (trusted : Bool) → IsExportOf world self.old.order self.old.keeper (D.faults self.old.keeper.disk) self.old.connections (Trusts trusted (D.honest self.old.keeper.disk)) (D.state self.old.keeper.disk)
            → (failure : Failure) × Settles world (after_step world step failure) self.new.order self.new.keeper (D.faults self.new.keeper.disk) self.new.connections
            (Trusts trusted (D.honest self.new.keeper.disk)) (D.state self.old.keeper.disk) (D.state self.new.keeper.disk)
            × ((after_step world step failure).log ≡ world.log ++ result ∷ []) }
    {
        self.step(step)
    }

    // Carries out a step of a checkpoint.
    fn checkpoint_step(&mut self, step: Step) -> Result<(), Refusal>
        requires storing { IsStoring step }
        requires group { IfSome self.old.connections.group (IsInHand self.old.order) }
        ensures group { IfSome self.new.connections.group (IsInHand self.new.order) }
        ensures extent { D.extent self.new.keeper.disk ≡ D.extent self.old.keeper.disk }
        ensures honest { D.honest self.new.keeper.disk ↔ D.honest self.old.keeper.disk }
        ensures early { IfErr result IsOfExport }
        ensures world { (world : World) (trusted : Bool) → IsExportOf world self.old.order self.old.keeper (D.faults self.old.keeper.disk) self.old.connections (Trusts trusted (D.honest self.old.keeper.disk)) (D.state self.old.keeper.disk)
            → (failure : Failure) × Settles world (after_step world step failure) self.new.order self.new.keeper (D.faults self.new.keeper.disk) self.new.connections
            (Trusts trusted (D.honest self.new.keeper.disk)) (D.state self.old.keeper.disk) (D.state self.new.keeper.disk)
            × MatchResult result (λ done. IsDone world (after_step world step failure)) (λ refusal. HasCause refusal world (after_step world step failure)) }
    {
        let event = self.store_step(step);
        let goes_on = goes_on_after(&event);
        let_go(event);
        goes_on
    }

    // Copies the next blocks of the first of several areas in use into data, or gives the event of the step that didn't.
    fn copy_some(&mut self) -> Result<u32, Event>
        requires group { IfSome self.old.connections.group (IsInHand self.old.order) }
        ensures group { IfSome self.new.connections.group (IsInHand self.new.order) }
        ensures extent { D.extent self.new.keeper.disk ≡ D.extent self.old.keeper.disk }
        ensures honest { D.honest self.new.keeper.disk ↔ D.honest self.old.keeper.disk }
        ensures some { IfOk result (λ blocks. 1 ≤ blocks) }
        ensures fewer { IfOk result (λ blocks. left_in self.new.keeper.phase + blocks ≡ left_in self.old.keeper.phase) }
        ensures refused { IfErr result (λ event. event ≡ Event.Took → ⊥) }
        ensures world { (world : World) (trusted : Bool) → IsExportOf world self.old.order self.old.keeper (D.faults self.old.keeper.disk) self.old.connections (Trusts trusted (D.honest self.old.keeper.disk)) (D.state self.old.keeper.disk)
            → (next : World) × Settles world next self.new.order self.new.keeper (D.faults self.new.keeper.disk) self.new.connections
            (Trusts trusted (D.honest self.new.keeper.disk)) (D.state self.old.keeper.disk) (D.state self.new.keeper.disk)
            × IsCopied world next result }
    {
        leads_law::<D>();
        schedule_law();
        copy_some(
            MOST_COPIED,
            &mut self.order,
            &mut self.keeper,
            &mut self.connections,
        )
    }

    // Copies all that is left to copy of the first of several areas in use.
    fn copy_all(&mut self) -> Result<(), Refusal>
        requires group { IfSome self.old.connections.group (IsInHand self.old.order) }
        ensures group { IfSome self.new.connections.group (IsInHand self.new.order) }
        ensures extent { D.extent self.new.keeper.disk ≡ D.extent self.old.keeper.disk }
        ensures honest { D.honest self.new.keeper.disk ↔ D.honest self.old.keeper.disk }
        ensures early { IfErr result IsOfExport }
        ensures world { (world : World) (trusted : Bool) → IsExportOf world self.old.order self.old.keeper (D.faults self.old.keeper.disk) self.old.connections (Trusts trusted (D.honest self.old.keeper.disk)) (D.state self.old.keeper.disk)
            → (next : World) × Settles world next self.new.order self.new.keeper (D.faults self.new.keeper.disk) self.new.connections
            (Trusts trusted (D.honest self.new.keeper.disk)) (D.state self.old.keeper.disk) (D.state self.new.keeper.disk)
            × MatchResult result (λ done. OrStopped HasCopiedAll world next) (λ refusal. HasCause refusal world next) }
    {
        leads_law::<D>();
        loop {
            match self.copy_some() {
                Ok(_) => {}
                Err(event) => {
                    let end = goes_on_after(&event);
                    let_go(event);
                    return end;
                }
            }
        }
    }

    // Carries the checkpoint of the first of several areas in use to its end.
    fn complete_first(&mut self) -> Result<(), Refusal>
        requires group { IfSome self.old.connections.group (IsInHand self.old.order) }
        ensures group { IfSome self.new.connections.group (IsInHand self.new.order) }
        ensures extent { D.extent self.new.keeper.disk ≡ D.extent self.old.keeper.disk }
        ensures honest { D.honest self.new.keeper.disk ↔ D.honest self.old.keeper.disk }
        ensures early { IfErr result IsOfExport }
        ensures world { (world : World) (trusted : Bool) → IsExportOf world self.old.order self.old.keeper (D.faults self.old.keeper.disk) self.old.connections (Trusts trusted (D.honest self.old.keeper.disk)) (D.state self.old.keeper.disk)
            → (next : World) × Settles world next self.new.order self.new.keeper (D.faults self.new.keeper.disk) self.new.connections
            (Trusts trusted (D.honest self.new.keeper.disk)) (D.state self.old.keeper.disk) (D.state self.new.keeper.disk)
            × MatchResult result (λ done. OrStopped HasFinished world next) (λ refusal. HasCause refusal world next) }
    {
        leads_law::<D>();
        schedule_law();
        self.copy_all()?;
        self.checkpoint_step(Step::Map)?;
        self.checkpoint_step(Step::Finish)
    }

    // Carries the checkpoints that have begun to their end: at most three areas stand before the last.
    fn complete_checkpoint(&mut self) -> Result<(), Refusal>
        requires group { IfSome self.old.connections.group (IsInHand self.old.order) }
        ensures group { IfSome self.new.connections.group (IsInHand self.new.order) }
        ensures extent { D.extent self.new.keeper.disk ≡ D.extent self.old.keeper.disk }
        ensures honest { D.honest self.new.keeper.disk ↔ D.honest self.old.keeper.disk }
        ensures early { IfErr result IsOfExport }
        ensures world { (world : World) (trusted : Bool) → IsExportOf world self.old.order self.old.keeper (D.faults self.old.keeper.disk) self.old.connections (Trusts trusted (D.honest self.old.keeper.disk)) (D.state self.old.keeper.disk)
            → (next : World) × Settles world next self.new.order self.new.keeper (D.faults self.new.keeper.disk) self.new.connections
            (Trusts trusted (D.honest self.new.keeper.disk)) (D.state self.old.keeper.disk) (D.state self.new.keeper.disk)
            × MatchResult result (λ done. OrStopped IsFinished world next) (λ refusal. HasCause refusal world next) }
    {
        leads_law::<D>();
        schedule_law();
        self.complete_first()?;
        self.complete_first()?;
        self.complete_first()
    }

    // Moves all that is stored into map and data, and lets the frames of it go. A checkpoint that was begun earlier, and for
    // which memory was refused, comes to its end first.
    fn checkpoint(&mut self) -> Result<(), Refusal>
        requires group { IfSome self.old.connections.group (IsInHand self.old.order) }
        ensures group { IfSome self.new.connections.group (IsInHand self.new.order) }
        ensures extent { D.extent self.new.keeper.disk ≡ D.extent self.old.keeper.disk }
        ensures honest { D.honest self.new.keeper.disk ↔ D.honest self.old.keeper.disk }
        ensures early { IfErr result IsOfExport }
        ensures world { (world : World) (trusted : Bool) → IsExportOf world self.old.order self.old.keeper (D.faults self.old.keeper.disk) self.old.connections (Trusts trusted (D.honest self.old.keeper.disk)) (D.state self.old.keeper.disk)
            → (next : World) × Settles world next self.new.order self.new.keeper (D.faults self.new.keeper.disk) self.new.connections
            (Trusts trusted (D.honest self.new.keeper.disk)) (D.state self.old.keeper.disk) (D.state self.new.keeper.disk)
            × MatchResult result (λ done. OrStopped IsEmptied world next) (λ refusal. HasCause refusal world next) }
    {
        leads_law::<D>();
        schedule_law();
        self.complete_checkpoint()?;
        self.checkpoint_step(Step::Rotate)?;
        self.complete_checkpoint()?;
        let_go(self.store_step(Step::Clean));
        Ok(())
    }

    // Stores the next group, the one in hand or the longest beginning of what is pending, where it fits the area; whether it
    // does. If the device fails the order is stopped.
    fn store_group(&mut self) -> Result<bool, Refusal>
        requires group { IfSome self.old.connections.group (IsInHand self.old.order) }
        requires pending { IsSettled self.old.order → ⊥ }
        ensures group { IfSome self.new.connections.group (IsInHand self.new.order) }
        ensures extent { D.extent self.new.keeper.disk ≡ D.extent self.old.keeper.disk }
        ensures honest { D.honest self.new.keeper.disk ↔ D.honest self.old.keeper.disk }
        ensures early { IfErr result IsOfExport }
        ensures world { (world : World) (trusted : Bool) → IsExportOf world self.old.order self.old.keeper (D.faults self.old.keeper.disk) self.old.connections (Trusts trusted (D.honest self.old.keeper.disk)) (D.state self.old.keeper.disk)
            → (next : World) × Settles world next self.new.order self.new.keeper (D.faults self.new.keeper.disk) self.new.connections
            (Trusts trusted (D.honest self.new.keeper.disk)) (D.state self.old.keeper.disk) (D.state self.new.keeper.disk)
            × CameTo world next result }
    {
        leads_law::<D>();
        schedule_law();
        let sealed = self.store_step(Step::Seal);
        let appended = self.store_step(Step::Append);
        let published = self.store_step(Step::Publish);
        let fits = fits_area(&sealed, &appended, &published);
        let_go(sealed);
        let_go(appended);
        let_go(published);
        fits
    }

    // Whether there is nothing to store, or nothing that can be.
    fn is_settled(&self) -> bool
        ensures { IsTrue result ↔ IsSettled self.now.order }
    {
        self.order.is_stopped() || self.order.durable() == self.order.mark()
    }

    // Stores the next group, after a checkpoint where it doesn't fit the area.
    fn store_some(&mut self) -> Result<(), Refusal>
        requires group { IfSome self.old.connections.group (IsInHand self.old.order) }
        requires pending { IsSettled self.old.order → ⊥ }
        ensures group { IfSome self.new.connections.group (IsInHand self.new.order) }
        ensures extent { D.extent self.new.keeper.disk ≡ D.extent self.old.keeper.disk }
        ensures honest { D.honest self.new.keeper.disk ↔ D.honest self.old.keeper.disk }
        ensures early { IfErr result IsOfExport }
        ensures world { (world : World) (trusted : Bool) → IsExportOf world self.old.order self.old.keeper (D.faults self.old.keeper.disk) self.old.connections (Trusts trusted (D.honest self.old.keeper.disk)) (D.state self.old.keeper.disk)
            → (next : World) × Settles world next self.new.order self.new.keeper (D.faults self.new.keeper.disk) self.new.connections
            (Trusts trusted (D.honest self.new.keeper.disk)) (D.state self.old.keeper.disk) (D.state self.new.keeper.disk)
            × MatchResult result (λ done. GetsOn world next) (λ refusal. HasCause refusal world next) }
    {
        leads_law::<D>();
        schedule_law();
        if self.store_group()? {
            return Ok(());
        }
        self.checkpoint()?;
        if self.is_settled() {
            return Ok(());
        }
        if self.store_group()? {
            return Ok(());
        }
        // An empty area takes any group.
        Err(Refusal::Failed)
    }

    /// Stores all that is pending, or what can be stored before the device fails.
    pub(crate) fn store_all(&mut self) -> Result<(), Refusal>
        requires group { IfSome self.old.connections.group (IsInHand self.old.order) }
        ensures group { IfSome self.new.connections.group (IsInHand self.new.order) }
        ensures extent { D.extent self.new.keeper.disk ≡ D.extent self.old.keeper.disk }
        ensures honest { D.honest self.new.keeper.disk ↔ D.honest self.old.keeper.disk }
        ensures ok { OnOk result (IsSettled self.new.order) }
        ensures early { IfErr result IsOfExport }
        ensures world { (world : World) (trusted : Bool) → IsExportOf world self.old.order self.old.keeper (D.faults self.old.keeper.disk) self.old.connections (Trusts trusted (D.honest self.old.keeper.disk)) (D.state self.old.keeper.disk)
            → (next : World) × Settles world next self.new.order self.new.keeper (D.faults self.new.keeper.disk) self.new.connections
            (Trusts trusted (D.honest self.new.keeper.disk)) (D.state self.old.keeper.disk) (D.state self.new.keeper.disk)
            × IfErr result (λ refusal. HasCause refusal world next) }
    {
        leads_law::<D>();
        schedule_law();
        for groups in 0..u64::MAX {
            if self.is_settled() {
                return Ok(());
            }
            self.store_some()?;
        }
        // Each group has a command at least, so all have been stored by now.
        if self.is_settled() {
            Ok(())
        } else {
            Err(Refusal::Failed)
        }
    }

    // Serves the request that was sent; not where there is no room for its command.
    fn try_serve(&mut self) -> bool
        requires group { IfSome self.old.connections.group (IsInHand self.old.order) }
        ensures group { IfSome self.new.connections.group (IsInHand self.new.order) }
        ensures extent { D.extent self.new.keeper.disk ≡ D.extent self.old.keeper.disk }
        ensures honest { D.honest self.new.keeper.disk ↔ D.honest self.old.keeper.disk }
        ensures world { (world : World) (trusted : Bool) (request : Message) → IsExportOf world self.old.order self.old.keeper (D.faults self.old.keeper.disk) self.old.connections (Trusts trusted (D.honest self.old.keeper.disk)) (D.state self.old.keeper.disk)
            → world.connections 0 ≡ Connection.Requested request
            → (next : World) × MatchBool result (IsJudged request.head (verdict_on request.head world.stage.setting.geometry world.stage.setting.flags) (next.connections 0))
            ((next.connections ≡ world.connections) × (next.stage ≡ world.stage) × LacksRoom world request)
            × Follows world next [] self.new.order self.new.keeper (D.faults self.new.keeper.disk) self.new.connections
            (Trusts trusted (D.honest self.new.keeper.disk)) (D.state self.old.keeper.disk) (D.state self.new.keeper.disk) }
    {
        if let Event::Skipped = self.step(Step::Serve(0)) {
            return false;
        }
        true
    }

    // Serves the request that was sent where all is stored. If there is no room for its command it is served once more after
    // a checkpoint.
    fn serve_stored(&mut self) -> Result<(), Refusal>
        requires settled { IsSettled self.old.order }
        requires group { IfSome self.old.connections.group (IsInHand self.old.order) }
        ensures group { IfSome self.new.connections.group (IsInHand self.new.order) }
        ensures extent { D.extent self.new.keeper.disk ≡ D.extent self.old.keeper.disk }
        ensures honest { D.honest self.new.keeper.disk ↔ D.honest self.old.keeper.disk }
        ensures early { IfErr result IsOfExport }
        ensures world { (world : World) (trusted : Bool) (request : Message) → IsExportOf world self.old.order self.old.keeper (D.faults self.old.keeper.disk) self.old.connections (Trusts trusted (D.honest self.old.keeper.disk)) (D.state self.old.keeper.disk)
            → world.connections 0 ≡ Connection.Requested request → length request.bytes ≤ 1048576 → 512 ≤ world.stage.setting.frames
            → (next : World) × OnOk result (IsJudged request.head (verdict_on request.head world.stage.setting.geometry world.stage.setting.flags) (next.connections 0))
            × Follows world next [] self.new.order self.new.keeper (D.faults self.new.keeper.disk) self.new.connections
            (Trusts trusted (D.honest self.new.keeper.disk)) (D.state self.old.keeper.disk) (D.state self.new.keeper.disk)
            × IfErr result (λ refusal. HasCause refusal world next) }
    {
        leads_law::<D>();
        schedule_law();
        if self.try_serve() {
            return Ok(());
        }
        self.checkpoint()?;
        if self.try_serve() {
            return Ok(());
        }
        // The frames and 64 MiB of data are free, and take any command.
        Err(Refusal::Failed)
    }

    // Serves the request that was sent. If there is no room for its command what is pending is stored first.
    fn serve_sent(&mut self) -> Result<(), Refusal>
        requires group { IfSome self.old.connections.group (IsInHand self.old.order) }
        ensures group { IfSome self.new.connections.group (IsInHand self.new.order) }
        ensures extent { D.extent self.new.keeper.disk ≡ D.extent self.old.keeper.disk }
        ensures honest { D.honest self.new.keeper.disk ↔ D.honest self.old.keeper.disk }
        ensures early { IfErr result IsOfExport }
        ensures world { (world : World) (trusted : Bool) (request : Message) → IsExportOf world self.old.order self.old.keeper (D.faults self.old.keeper.disk) self.old.connections (Trusts trusted (D.honest self.old.keeper.disk)) (D.state self.old.keeper.disk)
            → world.connections 0 ≡ Connection.Requested request → length request.bytes ≤ 1048576 → 512 ≤ world.stage.setting.frames
            → (next : World) × OnOk result (IsJudged request.head (verdict_on request.head world.stage.setting.geometry world.stage.setting.flags) (next.connections 0))
            × Follows world next [] self.new.order self.new.keeper (D.faults self.new.keeper.disk) self.new.connections
            (Trusts trusted (D.honest self.new.keeper.disk)) (D.state self.old.keeper.disk) (D.state self.new.keeper.disk)
            × IfErr result (λ refusal. HasCause refusal world next) }
    {
        leads_law::<D>();
        if self.try_serve() {
            return Ok(());
        }
        self.store_all()?;
        self.serve_stored()
    }

    // Gives the answer to the request that was served, where it is due.
    fn try_answer(&mut self) -> Option<Answer>
        requires group { IfSome self.old.connections.group (IsInHand self.old.order) }
        ensures group { IfSome self.new.connections.group (IsInHand self.new.order) }
        ensures extent { D.extent self.new.keeper.disk ≡ D.extent self.old.keeper.disk }
        ensures honest { D.honest self.new.keeper.disk ↔ D.honest self.old.keeper.disk }
        ensures world { (world : World) (trusted : Bool) (head : RequestHead) → IsExportOf world self.old.order self.old.keeper (D.faults self.old.keeper.disk) self.old.connections (Trusts trusted (D.honest self.old.keeper.disk)) (D.state self.old.keeper.disk)
            → AwaitsAnswer head (world.connections 0)
            → (next : World) × MatchOption result ((next.connections ≡ world.connections) × IsWaiting world) (λ answer. (next.connections 0 ≡ Connection.Idle) × IsGiven (world.connections 0) answer)
            × Follows world next (told result) self.new.order self.new.keeper (D.faults self.new.keeper.disk) self.new.connections
            (Trusts trusted (D.honest self.new.keeper.disk)) (D.state self.old.keeper.disk) (D.state self.new.keeper.disk) }
    {
        match self.step(Step::Answer(0)) {
            Event::Answered(_, answer) => Some(answer),
            _ => None,
        }
    }

    // Gives the answer to the request that was served, after all that is pending was stored where it isn't due.
    fn answer(&mut self) -> Result<Answer, Refusal>
        requires group { IfSome self.old.connections.group (IsInHand self.old.order) }
        ensures group { IfSome self.new.connections.group (IsInHand self.new.order) }
        ensures extent { D.extent self.new.keeper.disk ≡ D.extent self.old.keeper.disk }
        ensures honest { D.honest self.new.keeper.disk ↔ D.honest self.old.keeper.disk }
        ensures early { IfErr result IsOfExport }
        ensures world { (world : World) (trusted : Bool) (head : RequestHead) → IsExportOf world self.old.order self.old.keeper (D.faults self.old.keeper.disk) self.old.connections (Trusts trusted (D.honest self.old.keeper.disk)) (D.state self.old.keeper.disk)
            → AwaitsAnswer head (world.connections 0)
            → (next : World) × IfOk result (λ answer. (next.connections 0 ≡ Connection.Idle) × IsGiven (world.connections 0) answer)
            × Follows world next (told_by result) self.new.order self.new.keeper (D.faults self.new.keeper.disk) self.new.connections
            (Trusts trusted (D.honest self.new.keeper.disk)) (D.state self.old.keeper.disk) (D.state self.new.keeper.disk)
            × IfErr result (λ refusal. HasCause refusal world next) }
    {
        leads_law::<D>();
        schedule_law();
        if let Some(answer) = self.try_answer() {
            return Ok(answer);
        }
        self.store_all()?;
        match self.try_answer() {
            Some(answer) => Ok(answer),
            None => Err(Refusal::Failed),
        }
    }

    /// Serves a request to its answer; a DISC has none.
    pub(crate) fn serve(&mut self, request: Request) -> Result<Option<Answer>, Refusal>
        requires group { IfSome self.old.connections.group (IsInHand self.old.order) }
        ensures group { IfSome self.new.connections.group (IsInHand self.new.order) }
        ensures extent { D.extent self.new.keeper.disk ≡ D.extent self.old.keeper.disk }
        ensures honest { D.honest self.new.keeper.disk ↔ D.honest self.old.keeper.disk }
        ensures early { IfErr result IsOfExport }
        ensures kind { IfOk result (IsOfKind request) }
        ensures world { (world : World) (trusted : Bool) → IsExportOf world self.old.order self.old.keeper (D.faults self.old.keeper.disk) self.old.connections (Trusts trusted (D.honest self.old.keeper.disk)) (D.state self.old.keeper.disk)
            → world.connections 0 ≡ Connection.Idle → world.stage.setting.flags ≡ plain → 512 ≤ world.stage.setting.frames
            → (next : World) × IfOk result (HasAnswer world next request)
            × Follows world next (Event.Sent 0 request ∷ said_of result) self.new.order self.new.keeper (D.faults self.new.keeper.disk) self.new.connections
            (Trusts trusted (D.honest self.new.keeper.disk)) (D.state self.old.keeper.disk) (D.state self.new.keeper.disk)
            × IfErr result (λ refusal. HasCause refusal world next) }
    {
        leads_law::<D>();
        few_bytes(&request);
        let disconnects = request.head().kind == DISCONNECT;
        let _sent = self.connections.send(0, request);
        self.serve_sent()?;
        if disconnects {
            return Ok(None);
        }
        Ok(Some(self.answer()?))
    }

    /// The device, as it is.
    pub(crate) fn into_disk(self) -> D
        requires { IfSome self.connections.group (IsInHand self.order) }
        ensures { result ≡ self.keeper.disk }
    {
        let Export {
            alloc: _,
            board: _,
            mut order,
            seat: _,
            keeper,
            connections,
        } = self;
        connections.close(&mut order);
        keeper.into_disk()
    }
}
