//! What lies under the order's lock.
ghost use Rattle.std.specs.Prelude.{ℕ, List, ◌≡◌, ◌≢◌, ◌+◌, ◌-◌, ◌*◌, ◌/◌, ◌<◌, ◌≤◌, true, false, IfErr, IfOk, IfSome, IsErr, OnErr, length, max, slice_range, sum, vec_len};
ghost use mathlib.Core.List.{IsPrefix};
ghost use Rattle.disk_model.specs.Disk.{MayLeave};
ghost use Rattle.export.specs.Noted.{base_of};
ghost use Rattle.export.specs.inner.Serving.{IsServedAs, MayServe};
ghost use Rattle.export.specs.inner.Submits.{IsShownFor, serves_image};
ghost use Rattle.export_model.specs.Log.{is_write};
ghost use Rattle.export_model.specs.OneLog.{IsOneLog};
ghost use Rattle.image_model.specs.Edit.{blocks_met};
ghost use Rattle.order_book.specs.Order.{with_clean, with_durable};
ghost use Rattle.request_core.specs.Reading.{IsPlanned, IsReadOverServed};
ghost use Rattle.regions.specs.Layout.{block_at};
ghost use Rattle.shared_store.specs.Keepers.{HasLeft};
ghost use Rattle.shared_store.specs.Orders.{SpanRead};
ghost use Rattle.shared_store.specs.Parts.{StandsWithin};

use crate::edges::MissingEdges;
use crate::figures::{Notes, QueueFigures};
use crate::gathering::Waiters;
use crate::name::ExportName;
use crate::second_handle::ReadUnlocked;
use crate::storage_engine::{JournalUse, StepLength, StorageEngine};
use crate::storing::FlushInterval;
use crate::throttling::{Throttle, eighths_above};
use checkpoint::Keeper;
use disk_model::Disk;
use marks::{Board, Pass, Roster, Trust};
use nbd_wire::{Answer, Request, RequestHead, TRIM, WRITE, WRITE_ZEROES};
use order_book::{OrderFault, Span};
use request_core::{Blocks, NeedsKeeper, Served, Terms, plan_read};
use shared_store::{SealedGroup, SharedKeeper, SharedOrder};
use std::alloc::Global;
use std::rt::Clock;
use std::time::{Duration, Instant};

/// If pending commands have more bytes than this, they are stored though nobody waits for them.
const STORE_ABOVE_BYTES: u64 = 4_194_304;

/// The most bytes that a write adds to what is pending, besides its data: the bytes round a command's data, and those of the two blocks
/// that it may touch in part.
const MOST_ADDED_BYTES: u64 = 8_206;

/// A base that the order of an export has noted. Only the queue under the order's lock makes one, so each comes from a moment at which
/// the order had noted it.
#[derive(Clone, Copy)]
pub struct NotedBase {
    number: u64,
}

impl NotedBase {
    /// The number of the last command in it.
    pub fn number(&self) -> u64
        ensures { result ≡ base_of self.now }
    {
        self.number
    }
}

/// What of the device is read without a lock.
#[derive(Clone, Copy)]
pub(crate) struct Planned {
    /// The blocks.
    pub span: Span,
    /// The base that the order had noted when they were found missing.
    pub noted_base: NotedBase,
}

/// The order of an export, and what its threads ask of one another.
pub(crate) struct CommitQueue<B: ExportName> {
    order: SharedOrder<B>,
    // The base that the order has noted: the number up to which written blocks are clean.
    pub(crate) noted_base: NotedBase,
    // The frames for blocks.
    frames: u32,
    // The passes that haven't left.
    passes: usize,
    // The greatest number that somebody waits for, and how many wait.
    wanted: u64,
    waiters: Waiters,
    // Whether a group was sealed that isn't stored yet, nor pending again. There is one at a time.
    is_storing: bool,
    // Whether the flusher is to store the next group, though threads wait that could.
    calls_flusher: bool,
    // Whether a group didn't fit the area, and no other area has been taken into use since.
    is_full: bool,
    // Whether a command had no room, and no checkpoint has ended since.
    lacks_room: bool,
    // Whether a checkpoint is wanted, once all up to this number is stored.
    checkpoint_after: Option<u64>,
    // Whether no group will be stored any more.
    flusher_ended: bool,
    // Whether memory has been refused for so long that nobody is to wait for the next group, or for a copy of the journal.
    cannot_store: bool,
    cannot_copy: bool,
    // How many bytes of commands may be pending.
    most_pending: u64,
    // How long what is pending may wait.
    interval: FlushInterval,
    // By how much clients that write are slowed down.
    throttle: Throttle,
    // What is told of all this.
    notes: Notes,
    ghost blocks: { length order.cache.states ≡ B.geometry.blocks },
    ghost noted: { noted_base.number ≡ order.base },
    ghost bound: { most_pending ≡ B.most_pending },
}

impl<B: ExportName> Drop for CommitQueue<B> {
    fn drop(self) {
        let CommitQueue {
            order: _,
            noted_base: _,
            frames: _,
            passes: _,
            wanted: _,
            waiters: _,
            is_storing: _,
            calls_flusher: _,
            is_full: _,
            lacks_room: _,
            checkpoint_after: _,
            flusher_ended: _,
            cannot_store: _,
            cannot_copy: _,
            most_pending: _,
            interval: _,
            throttle: _,
            notes: _,
        } = self;
    }
}

// Whether bytes or states of the image were served.
fn serves_image(served: &Served) -> bool
    ensures { result ≡ serves_image served.now }
{
    match served {
        Served::Ready(reply) => match &reply.answer {
            Answer::Bytes(_) | Answer::States(_) => true,
            Answer::Done | Answer::Refused(_) => false,
        },
        Served::Wait(_) | Served::NoRoom(_) => false,
    }
}

// Shows the history to a pass for which bytes or states were served: they are those of the image after it.
fn show<B: ExportName, T: Trust>(
    order: &mut SharedOrder<B>,
    board: &Board<B, T>,
    pass: &mut Pass<B>,
    served: &Served,
)
    ensures order { order.new ≡ order.old }
    ensures pass { IsShownFor order.old.history order.old.mark served.now pass.old pass.new }
{
    if serves_image(served) {
        order.show(board, pass);
    }
}

impl<B: ExportName> CommitQueue<B> {
    ghost use Rattle.export.specs.inner.Queue.{KeepsBounds};

    pub(crate) fn new(
        order: SharedOrder<B>,
        frames: u32,
        passes: usize,
        noted_base: u64,
        journal: JournalUse,
        most_pending: u64,
    ) -> CommitQueue<B>
        requires blocks { length order.cache.states ≡ B.geometry.blocks }
        requires noted { noted_base ≡ order.base }
        requires bound { most_pending ≡ B.most_pending }
        ensures order { result.order ≡ order }
        ensures noted_base { result.noted_base.number ≡ noted_base }
    {
        CommitQueue {
            order,
            noted_base: NotedBase { number: noted_base },
            frames,
            passes,
            wanted: 0,
            waiters: Waiters::new(),
            is_storing: false,
            calls_flusher: false,
            is_full: false,
            lacks_room: false,
            checkpoint_after: None,
            flusher_ended: false,
            cannot_store: false,
            cannot_copy: false,
            most_pending,
            interval: FlushInterval::endless(),
            throttle: Throttle::new(),
            notes: Notes::new(journal),
        }
    }

    /// Serves a request that isn't a DISC, as far as no keeper is needed.
    pub(crate) fn serve<T: Trust>(
        &mut self,
        alloc: Global,
        request: Request,
        board: &Board<B, T>,
        pass: &mut Pass<B>,
        terms: Terms,
    ) -> Result<Served, NeedsKeeper>
        requires { MayServe T.logs T.trusted T.mode T.image B.opening B.image B.vouches B.trusted B.geometry request terms pass.old.client }
        ensures served { IfOk result (λ served. IsServedAs T.logs T.trusted T.image B.opening B.image B.vouches B.trusted request terms pass.old pass.new served) }
        ensures handed_back { IfErr result (λ back. back.0 ≡ request) }
        ensures unchanged { OnErr result (pass.new ≡ pass.old) }
        ensures bounds { KeepsBounds self.old self.new }

        // Once a command was accepted, no more bytes are pending than may be, its own included.
        ensures bounded { self.old.order.mark < self.new.order.mark → sum self.new.order.bodies ≤ self.old.most_pending }
    {
        if self.exceeds_loss(&request) {
            return Ok(Served::NoRoom(request));
        }
        let served = self.order.serve(alloc, request, board, pass, terms)?;
        show(&mut self.order, board, pass, &served);
        Ok(served)
    }

    /// The span of the device that a READ needs, and the base that the order has noted; None for another request.
    pub(crate) fn plan(&self, request: &Request, terms: &Terms) -> Option<Planned>
        requires { terms.now.geometry ≡ B.geometry }
        ensures planned { IfSome result (λ planned. IsPlanned request.now.head terms.now.geometry terms.now.flags planned.span) }
        ensures noted_base { IfSome result (λ planned. planned.noted_base ≡ self.now.noted_base) }
    {
        let span = plan_read(&request.head(), self.order.order(), terms)?;
        Some(Planned {
            span,
            noted_base: self.noted_base,
        })
    }

    /// The blocks of which a write command takes old bytes from the device.
    pub(crate) fn missing_edges(&self, head: &RequestHead) -> MissingEdges {
        MissingEdges::new(head, self.order.order(), self.noted_base)
    }

    /// Serves a READ with bytes of the device that were read without locks. They come back if the blocks may have other bytes now, or
    /// another block is needed.
    ///
    /// The blocks may have other bytes only if the order has noted another base since, when blocks became clean. While the base is the
    /// same, no command after it has touched a block that is data now and isn't in memory: if the last such command had cleared the
    /// block it would be no data, and if it had written the block its frame would be dirty until a clean. So the block is as at that
    /// base; and a checkpoint writes only the places of blocks that a command after the base writes.
    pub(crate) fn serve_over<H: ReadUnlocked, T: Trust>(
        &mut self,
        alloc: Global,
        handle: &H,
        request: &Request,
        planned: Planned,
        bytes: Vec<u8>,
        board: &Board<B, T>,
        pass: &mut Pass<B>,
        terms: &Terms,
    ) -> Result<Served, Vec<u8>>
        requires may { MayServe T.logs T.trusted T.mode T.image B.opening B.image B.vouches B.trusted B.geometry request.now terms.now pass.old.client }
        requires planned { IsPlanned request.now.head terms.now.geometry terms.now.flags planned.span }
        requires vouched { (read : SpanRead) → H.vouches handle.now read → ∥ B.vouches read ∥₁ }
        requires given { H.gives handle.now (base_of planned.noted_base) (block_at terms.now.geometry planned.span.first)
            (slice_range bytes.items (4096 * (planned.span.first - request.now.head.offset / 4096)) (4096 * (planned.span.end - request.now.head.offset / 4096))) }
        requires size { vec_len bytes ≡ 4096 * blocks_met request.now.head.offset request.now.head.length }
        ensures served { IfOk result (λ served. IsServedAs T.logs T.trusted T.image B.opening B.image B.vouches B.trusted request.now terms.now pass.old pass.new served) }
        ensures size { IfErr result (λ back. vec_len back ≡ 4096 * blocks_met request.now.head.offset request.now.head.length) }
        ensures noted_base { self.new.noted_base ≡ self.old.noted_base }
        ensures over { IfOk result (λ served. IsReadOverServed request.now.head planned.span bytes.items self.old.order self.new.order served) }
        // No bytes are served that were read at another noted base.
        ensures other_base { planned.noted_base.number ≢ self.old.noted_base.number → IsErr result }
        // Where the bytes come back order and pass are as they were, and the rest of the queue is always.
        ensures unchanged { OnErr result ((self.new.order ≡ self.old.order) × (pass.new ≡ pass.old)) }
        ensures rest { (self.new.frames ≡ self.old.frames) × (self.new.passes ≡ self.old.passes) × (self.new.wanted ≡ self.old.wanted)
            × (self.new.waiters ≡ self.old.waiters) × (self.new.is_storing ≡ self.old.is_storing) × (self.new.calls_flusher ≡ self.old.calls_flusher) × (self.new.is_full ≡ self.old.is_full) × (self.new.lacks_room ≡ self.old.lacks_room)
            × (self.new.checkpoint_after ≡ self.old.checkpoint_after) × (self.new.flusher_ended ≡ self.old.flusher_ended) × (self.new.cannot_store ≡ self.old.cannot_store) × (self.new.cannot_copy ≡ self.old.cannot_copy) × (self.new.most_pending ≡ self.old.most_pending) × (self.new.interval ≡ self.old.interval)
            × (self.new.throttle ≡ self.old.throttle) × (self.new.notes ≡ self.old.notes) }
    {
        if planned.noted_base.number != self.noted_base.number {
            return Err(bytes);
        }
        let head = request.head();
        let is_vouched = handle.vouch(
            &terms.geometry,
            Blocks::from_head(&head).first,
            planned.span,
            &bytes,
            planned.noted_base,
            self.order.order(),
        );
        if !is_vouched {
            return Err(bytes);
        }
        let served = self
            .order
            .serve_over(alloc, &head, planned.span, bytes, terms)?;
        show(&mut self.order, board, pass, &served);
        Ok(served)
    }

    /// Serves a request that isn't a DISC, with the keeper.
    pub(crate) fn serve_with<D: Disk, T: Trust>(
        &mut self,
        alloc: Global,
        request: Request,
        keeper: &mut SharedKeeper<B, D>,
        board: &Board<B, T>,
        pass: &mut Pass<B>,
        terms: Terms,
    ) -> Served
        requires may { MayServe T.logs T.trusted T.mode T.image B.opening B.image B.vouches B.trusted B.geometry request terms pass.old.client }
        requires device { keeper.old.keeper.geometry ≡ B.geometry }
        ensures served { IsServedAs T.logs T.trusted T.image B.opening B.image B.vouches B.trusted request terms pass.old pass.new result }
        ensures geometry { keeper.new.keeper.geometry ≡ keeper.old.keeper.geometry }
        ensures count { keeper.new.keeper.count ≡ keeper.old.keeper.count }
        ensures bounds { KeepsBounds self.old self.new }
        ensures bounded { self.old.order.mark < self.new.order.mark → sum self.new.order.bodies ≤ self.old.most_pending }
    {
        if self.exceeds_loss(&request) {
            return Served::NoRoom(request);
        }
        let served = self
            .order
            .serve_with(alloc, request, keeper, board, pass, terms);
        show(&mut self.order, board, pass, &served);
        served
    }

    /// Whether a request asks for a write that could leave more bytes pending than may be. After a device fault there is no such.
    pub(crate) fn exceeds_loss(&self, request: &Request) -> bool
        ensures bounded { result ≡ false → is_write request.now ≡ true → self.now.order.stopped ≡ false
            → sum self.now.order.bodies + 8206 + length request.now.bytes ≤ self.now.most_pending }
        ensures stopped { self.now.order.stopped ≡ true → result ≡ false }
    {
        let order = self.order.order();
        if order.is_stopped() {
            return false;
        }
        match request.head().kind {
            WRITE | TRIM | WRITE_ZEROES => {}
            _ => return false,
        }
        let most = request.bytes().len() as u64 + MOST_ADDED_BYTES;
        if let Some(room) = self.most_pending.checked_sub(most) {
            if order.backlog_bytes() <= room {
                return false;
            }
        }
        true
    }

    /// Whether the oldest pending command is older than this, as far as that is known.
    pub(crate) fn is_older_than<R: Clock>(&self, rt: &R, limit: Duration) -> bool {
        match self.notes.oldest() {
            Some(oldest) => oldest.elapsed(rt).is_ok_and(|age| age > limit),
            None => false,
        }
    }

    /// Whether a call of the device has failed.
    pub(crate) fn is_stopped(&self) -> bool {
        self.order.order().is_stopped()
    }

    /// Refuses commands from now on.
    pub(crate) fn stop(&mut self)
        ensures bounds { KeepsBounds self.old self.new }
    {
        self.order.stop();
    }

    /// A pass has left.
    pub(crate) fn leave(&mut self)
        ensures bounds { KeepsBounds self.old self.new }
    {
        self.passes = self.passes.saturating_sub(1);
    }

    /// No group will be stored any more.
    pub(crate) fn end(&mut self)
        ensures bounds { KeepsBounds self.old self.new }
    {
        self.flusher_ended = true;
    }

    /// The flusher is to store all up to a number.
    pub(crate) fn want(&mut self, number: u64)
        ensures bounds { KeepsBounds self.old self.new }
        ensures order { self.new.order ≡ self.old.order }
    {
        self.wanted = self.wanted.max(number);
        self.calls_flusher = true;
    }

    /// Somebody begins to wait until a number is durable, which it isn't.
    pub(crate) fn begin_wait(&mut self, number: u64)
        ensures bounds { KeepsBounds self.old self.new }
    {
        let is_sealed = number <= self.order.order().sealed();
        self.waiters.join(is_sealed);
        self.wanted = self.wanted.max(number);
    }

    /// Whether a group is being stored.
    pub(crate) fn is_storing(&self) -> bool {
        self.is_storing
    }

    /// Whether the thread that waits is to store the next group itself: it waits alone, nobody stores a group, and nothing else calls
    /// the flusher. If several wait the flusher stores one group after another without a thread to be woken between two.
    pub(crate) fn may_waiter_store(&self) -> bool {
        self.is_group_due() && !self.needs_flusher()
    }

    /// Whether the flusher is to store the next group.
    pub(crate) fn needs_flusher(&self) -> bool {
        self.is_group_due()
            && (self.calls_flusher
                || self.lacks_room
                || self.passes == 0
                || !self.waiters.is_alone()
                || self.has_much_pending())
    }

    /// The flusher is to store the next group.
    pub(crate) fn call_flusher(&mut self)
        ensures bounds { KeepsBounds self.old self.new }
    {
        self.calls_flusher = true;
    }

    /// Whether more are expected to wait for the next group, and nothing asks for it at once. With one pass nobody else comes.
    pub(crate) fn is_worth_gathering(&self) -> bool {
        self.passes > 1
            && !self.lacks_room
            && !self.has_much_pending()
            && self.waiters.expects_more()
    }

    /// A command has no room.
    pub(crate) fn note_no_room(&mut self)
        ensures bounds { KeepsBounds self.old self.new }
    {
        self.lacks_room = true;
        self.request_checkpoint();
    }

    /// Unless a checkpoint is wanted, wants one of all that is accepted by now, which the flusher is to store.
    pub(crate) fn request_checkpoint(&mut self)
        ensures bounds { KeepsBounds self.old self.new }
        ensures order { self.new.order ≡ self.old.order }
    {
        if self.checkpoint_after.is_none() {
            let through = self.order.order().mark();
            self.checkpoint_after = Some(through);
            self.want(through);
        }
    }

    /// Wants a checkpoint if a quarter of the frames is dirty; whether it is wanted from now on. While an area waits to be copied, this
    /// takes no other into use.
    pub(crate) fn request_if_dirty(&mut self) -> bool
        ensures bounds { KeepsBounds self.old self.new }
        ensures order { self.new.order ≡ self.old.order }
    {
        if self.checkpoint_after.is_some() || !self.is_quarter_dirty() {
            return false;
        }
        self.request_checkpoint();
        true
    }

    fn is_quarter_dirty(&self) -> bool {
        self.order.order().dirty_blocks() as u64 * 4 >= self.frames as u64
    }

    /// How long a step of copying is, and whether the checkpointer yields after it, which it does if a thread waits for a group, or waited
    /// for the last one. If the journal is short of room, writes wait, or all passes have left, steps are long and it doesn't yield.
    pub(crate) fn copy_pace(&self, is_short: bool) -> (StepLength, bool) {
        let hurries = is_short || self.lacks_room || self.passes == 0 || self.slows_writers();
        let is_half_dirty = self.order.order().dirty_blocks() as u64 * 2 >= self.frames as u64;
        let length = if hurries || is_half_dirty {
            StepLength::Long
        } else {
            StepLength::Short
        };
        (length, !hurries && self.waiters.waited_lately())
    }

    /// How many microseconds a client waits that has written this many blocks.
    pub(crate) fn throttle(&mut self, blocks: u64) -> u64
        ensures bounds { KeepsBounds self.old self.new }
    {
        let dirty = self.order.order().dirty_blocks() as u64;
        self.throttle.note(blocks, dirty, self.frames as u64)
    }

    /// Whether clients that write are to be slowed down.
    pub(crate) fn slows_writers(&self) -> bool {
        eighths_above(self.order.order().dirty_blocks() as u64, self.frames as u64) > 0
    }

    /// Whether there are enough pending bytes to store them though nobody waits for them: more than the usual limit, or than half of the
    /// most that may be pending.
    pub(crate) fn has_much_pending(&self) -> bool {
        self.order.order().backlog_bytes() > STORE_ABOVE_BYTES.min(self.most_pending / 2)
    }

    /// Whether to wake the flusher, and the checkpointer, once a request was served: both if a checkpoint is wanted from now on, and the
    /// flusher also if much is pending, or if it is to count the time from now on.
    pub(crate) fn whom_to_wake(&mut self) -> (bool, bool)
        ensures bounds { KeepsBounds self.old self.new }
    {
        let is_due = self.request_if_dirty();
        let first = self.is_pending() && self.interval.take_awaits_first();
        (is_due || first || self.has_much_pending(), is_due)
    }

    /// Whether a command is pending.
    pub(crate) fn is_pending(&self) -> bool {
        self.order.order().durable() != self.order.order().mark()
    }

    /// Has what is pending by now stored.
    pub(crate) fn want_pending(&mut self)
        ensures bounds { KeepsBounds self.old self.new }
    {
        let mark = self.order.order().mark();
        self.want(mark);
    }

    /// How long what is pending may wait.
    pub(crate) fn interval(&mut self) -> &mut FlushInterval {
        &mut self.interval
    }

    // Whether the next group is to be stored now.
    fn is_group_due(&self) -> bool {
        let durable = self.order.order().durable();
        if self.is_storing || self.is_full || durable == self.order.order().mark() {
            return false;
        }
        durable < self.wanted || self.lacks_room || self.passes == 0 || self.has_much_pending()
    }

    /// Whether nothing is left to store, and nothing will come.
    pub(crate) fn is_done(&self) -> bool {
        self.passes == 0 && self.order.order().durable() == self.order.order().mark()
    }

    /// Whether a checkpoint is to be begun: what it is to free is stored, or as much of it as the area takes.
    pub(crate) fn is_checkpoint_due(&self) -> bool {
        match self.checkpoint_after {
            Some(through) => self.is_full || through <= self.order.order().durable(),
            None => false,
        }
    }

    /// Whether a checkpoint is wanted.
    pub(crate) fn wants_checkpoint(&self) -> bool {
        self.checkpoint_after.is_some()
    }

    /// Whether no group will be stored any more.
    pub(crate) fn flusher_ended(&self) -> bool {
        self.flusher_ended
    }

    /// Sets whether memory has been refused to the flusher for so long that nobody is to wait for a group.
    pub(crate) fn set_cannot_store(&mut self, cannot: bool)
        ensures bounds { KeepsBounds self.old self.new }
    {
        self.cannot_store = cannot;
    }

    /// Sets whether memory has been refused to the checkpointer for so long that nobody is to wait for room.
    pub(crate) fn set_cannot_copy(&mut self, cannot: bool)
        ensures bounds { KeepsBounds self.old self.new }
    {
        self.cannot_copy = cannot;
    }

    /// Whether nothing pending will be stored soon, for want of memory.
    pub(crate) fn cannot_store(&self) -> bool {
        self.cannot_store || (self.is_full && self.cannot_copy)
    }

    /// Whether no room will be made soon, for want of memory.
    pub(crate) fn cannot_make_room(&self) -> bool {
        self.cannot_store || self.cannot_copy
    }

    /// Whether all passes have left.
    pub(crate) fn have_all_left(&self) -> bool {
        self.passes == 0
    }

    /// A command was accepted after this moment.
    pub(crate) fn note_pending(&mut self, began: Instant)
        ensures bounds { KeepsBounds self.old self.new }
    {
        if self.is_pending() {
            self.notes.note_pending(began);
        }
    }

    /// How much of the journal is used now.
    pub(crate) fn note_journal(&mut self, journal: JournalUse)
        ensures bounds { KeepsBounds self.old self.new }
        ensures order { self.new.order ≡ self.old.order }
    {
        self.notes.note_journal(journal);
    }

    /// The figures of the order and of what it noted.
    pub(crate) fn figures(&self) -> QueueFigures
        ensures base { result.base ≡ self.now.order.base }
        ensures commands { result.pending_commands ≡ self.now.order.mark - self.now.order.durable }
        ensures bytes { result.pending_bytes ≡ sum self.now.order.bodies }
        ensures dirty { result.dirty_frames ≡ length self.now.order.cache.blocks.dirty }
    {
        let order = self.order.order();
        let dirty = u64::from(order.dirty_blocks());
        let held = order.cached_blocks() as u64;
        QueueFigures {
            base: self.noted_base.number,
            pending_commands: order.mark().saturating_sub(order.durable()),
            pending_bytes: order.backlog_bytes(),
            oldest: self.notes.oldest(),
            dirty_frames: dirty,
            clean_frames: held.saturating_sub(dirty),
            free_frames: u64::from(self.frames).saturating_sub(held),
            journal: self.notes.journal(),
        }
    }

    /// Takes the longest beginning of what is pending as a group, at this moment.
    pub(crate) fn seal<T: Trust>(
        &mut self,
        board: &Board<B, T>,
        now: Option<Instant>,
    ) -> Result<Option<SealedGroup<B>>, OrderFault>
        ensures bounds { KeepsBounds self.old self.new }
    {
        let sealed = self.order.seal(board)?;
        if sealed.is_some() {
            self.notes.seal(now);
            self.is_storing = true;
        }
        if self.order.order().sealed() == self.order.order().mark() {
            self.waiters.seal();
            self.calls_flusher = false;
        }
        Ok(sealed)
    }

    /// Makes a group pending again, which the flusher is to store.
    pub(crate) fn put_back<T: Trust>(&mut self, board: &Board<B, T>, sealed: SealedGroup<B>)
        ensures bounds { KeepsBounds self.old self.new }
    {
        self.waiters.put_back();
        if let Err(other) = self.order.put_back(board, sealed) {
            // One group is sealed at a time, so it is the one in hand.
            other.discard();
        }
        self.is_storing = false;
        self.calls_flusher = true;
    }

    /// Makes a group pending again, which the area had no room for, and wants a checkpoint.
    pub(crate) fn put_back_as_full<T: Trust>(&mut self, board: &Board<B, T>, sealed: SealedGroup<B>)
        ensures bounds { KeepsBounds self.old self.new }
    {
        self.put_back(board, sealed);
        self.is_full = true;
        self.request_checkpoint();
    }

    /// Whether a group didn't fit the area.
    pub(crate) fn is_full(&self) -> bool {
        self.is_full
    }

    /// Another area has been taken into use.
    pub(crate) fn note_next_area(&mut self)
        ensures bounds { KeepsBounds self.old self.new }
    {
        self.is_full = false;
    }

    /// Makes durable what is stored; whether a checkpoint is wanted then.
    pub(crate) fn publish<D: Disk, T: Trust>(
        &mut self,
        board: &Board<B, T>,
        engine: &mut StorageEngine<B, D>,
    ) -> bool
        ensures bounds { KeepsBounds self.old self.new }
        ensures order { self.new.order ≡ with_durable self.old.order engine.old.shared.keeper.count }
    {
        self.order.publish(board, &mut engine.shared);
        self.is_storing = false;
        let is_pending = self.is_pending();
        self.notes.publish(is_pending);
        self.notes.note_journal(engine.journal_use());
        self.waiters.publish();
        if engine.is_filling() {
            self.request_checkpoint();
        }
        self.request_if_dirty();
        self.wants_checkpoint()
    }

    /// Keeper and pass meet the order: the pass then knows the whole history, and what it knows to be durable is stored. Gives the number
    /// of the last command that was accepted.
    pub(crate) fn meet_all<D: Disk, T: Trust>(
        &mut self,
        board: &Board<B, T>,
        keeper: &mut SharedKeeper<B, D>,
        pass: &mut Pass<B>,
    ) -> u64
        ensures mark { result ≡ B.opening + length pass.new.history }
        ensures keeper { keeper.new.keeper ≡ keeper.old.keeper }
        ensures history { pass.new.history ≡ self.new.order.history }
        ensures durable { pass.new.durable ≡ pass.old.durable }
        ensures own { pass.new.own ≡ pass.old.own }
        ensures knew { IsPrefix pass.old.history pass.new.history }
        ensures left { B.trusted → (content : List ℕ) → MayLeave (D.state keeper.old.keeper.disk) content
            → StandsWithin B.opening B.image pass.new.history pass.old.durable content }
        ensures passed { B.trusted → HasLeft B.start (D.state keeper.old.keeper.disk) B.opening B.image pass.new.history }
        ensures honest { B.trusted → D.honest keeper.old.keeper.disk }
    {
        self.order.meet_all(board, keeper, pass)
    }

    /// The end of the board, to which order and keeper give their seats back.
    pub(crate) fn close<D: Disk, T: Trust>(
        self,
        board: Board<B, T>,
        engine: StorageEngine<B, D>,
        roster: Roster<B>,
    ) -> Keeper<D>
        ensures keeper { result ≡ engine.shared.keeper }
        ensures log { T.logs → (durable : ℕ) × IsOneLog T.trusted T.mode T.image self.order.history durable roster
            × (B.trusted → (content : List ℕ) → MayLeave (D.state engine.shared.keeper.disk) content → StandsWithin B.opening B.image self.order.history (B.opening + durable) content) }
    {
        let CommitQueue {
            order,
            noted_base: _,
            frames: _,
            passes: _,
            wanted: _,
            waiters: _,
            is_storing: _,
            calls_flusher: _,
            is_full: _,
            lacks_room: _,
            checkpoint_after: _,
            flusher_ended: _,
            cannot_store: _,
            cannot_copy: _,
            most_pending: _,
            interval: _,
            throttle: _,
            notes: _,
        } = self;
        order.close(board, engine.into_shared(), roster)
    }

    /// Makes the blocks clean that the image holds. A checkpoint that was wanted is done, and is wanted again if the area is
    /// full.
    pub(crate) fn clean<D: Disk, T: Trust>(
        &mut self,
        board: &Board<B, T>,
        keeper: &mut SharedKeeper<B, D>,
    )
        ensures noted_base { self.new.noted_base.number ≡ keeper.old.keeper.base }
        ensures order { self.new.order ≡ with_clean (record self.old.order { base = max self.old.order.base keeper.old.keeper.base }) keeper.old.keeper.base }
        ensures keeper { keeper.new.keeper ≡ keeper.old.keeper }
        ensures limit { self.new.most_pending ≡ self.old.most_pending }
    {
        self.order.clean(board, keeper);
        self.noted_base = NotedBase {
            number: keeper.keeper().base(),
        };
        self.clear_checkpoint_request();
    }

    /// No checkpoint is wanted any more, unless the area is full.
    pub(crate) fn clear_checkpoint_request(&mut self)
        ensures bounds { KeepsBounds self.old self.new }
        ensures order { self.new.order ≡ self.old.order }
    {
        self.lacks_room = false;
        self.checkpoint_after = None;
        if self.is_full {
            self.request_checkpoint();
        }
    }
}
