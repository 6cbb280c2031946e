ghost use Rattle.std.specs.Prelude.{◌≡◌, ◌≢◌, ◌+◌, ◌*◌, ◌<◌, ◌≤◌, ◌/◌, ◌%◌, ◌↔◌, ◌^◌, [], ℕ, max, List, length, slice_index, slice_index_or, sum, true, false, ◌⊎◌, Some, None, IsErr, IsErrAnd, IfErr, IfOk, IfSome, IfNone, IsTrue, OnErr, OnOk, vec_len, vec_capacity};
ghost use Rattle.std.specs.FinMap.{len};
ghost use mathlib.Core.List.{IsPrefix};
ghost use Rattle.alloc_map.specs.Codes.{state_at};
ghost use Rattle.alloc_map.specs.Runs.{AreRuns};
ghost use Rattle.image_model.specs.Bodies.{body_limit};
ghost use Rattle.checkpoint.specs.Keeper.{faults_by, refused_by};
ghost use Rattle.checkpoint.specs.declared.fault.KeeperFault.TheVariants as KeeperFault;
ghost use Rattle.device_image.specs.Holds.{Holds, is_written, joined};
ghost use Rattle.image_model.specs.Change.{Change, change_of};
ghost use Rattle.image_model.specs.declared.command.Kind.TheVariants.{Data};
ghost use Rattle.journal_format.specs.Reading.{IsOnlyRead};
ghost use Rattle.marks.specs.Client.{HasAsked, HasFlushed, accepting, flushing};
ghost use Rattle.marks.specs.Known.{known};
ghost use Rattle.image_model.specs.Command.{IsCommand};
ghost use Rattle.image_model.specs.Edit.{blocks_met};
ghost use Rattle.image_model.specs.Image.{Image, apply as image_after};
ghost use Rattle.order_book.specs.Cached.{ShowsCommand};
ghost use Rattle.order_book.specs.Reading.{GivesBase, IsCleanAt, IsKept, LiesIn, ShowsRead};
ghost use Rattle.order_book.specs.Shown.{ShowsImage, IsZeroOutsideData};
ghost use Rattle.order_book.specs.Order.{OrderState, new_order, IsNumbered, has_room, with_command, with_clean, Seals, IsInHand, with_group, with_durable, PublishesTo};
ghost use Rattle.order_book.specs.inner.Order.{refusal_of};
ghost use Rattle.shared_cache.specs.Cache.{LacksBytes, bytes_seen};
ghost use Rattle.shared_cache.specs.View.{ShowsClean};

mod editing;

use crate::backlog::Backlog;
use crate::commands::{apply, clean_through, has_frames};
use crate::fault::OrderFault;
use crate::kept::Kept;
use crate::pending::{PendingCommands, have_small_bodies};
use crate::reading::{
    copy_in_memory, holds, keep_blocks, missing_span, put_cached_over, read_blocks,
};
use crate::span::Span;
use alloc_map::{AllocMap, Run};
use checkpoint::{Keeper, KeeperFault};
use disk_model::Disk;
use image_model::{Command, Kind};
use journal::Group;
use journal_format::MOST_BODY_BYTES;
use marks::{Board, BoardName, KeeperSeat, OrderSeat, Pass, Told, Trust};
use shared_cache::{Cache, Missing};
use std::alloc::{AllocError, Global};
use std::marker::Model;

/// The most bytes that the commands which aren't durable take in groups.
const MOST_BACKLOG_BYTES: u64 = 67_108_864;

/// The bytes of an area round a group's body: what stands before it, and the gate after it.
const BYTES_ROUND_BODY: u64 = 18;

/// A span of more blocks that was read with no lock held isn't kept in memory: it would push out as many.
const MOST_KEPT: u64 = 8;

/// The total order of write commands, under the name of the board that shows its last number.
pub struct Order<B: BoardName> {
    opening: u64,
    durable: u64,
    sealed: u64,
    mark: u64,
    // How many commands the group has that was sealed last; 0 if it is pending again.
    in_hand: usize,
    pending: PendingCommands,
    backlog: Backlog,
    cache: Cache,
    area: u32,
    stopped: bool,
    seat: OrderSeat<B>,
}

// Written out, it is proved once, and not again in each function that lets an order go.
impl<B: BoardName> Drop for Order<B> {
    fn drop(self) {
        let Order {
            opening: _,
            durable: _,
            sealed: _,
            mark: _,
            in_hand: _,
            pending: _,
            backlog: _,
            cache: _,
            area: _,
            stopped: _,
            seat: _,
        } = self;
    }
}

impl<B: BoardName> Model for Order<B> {
    ghost use Rattle.std.specs.Coded.{codes, coded_ℕ};
    ghost use Rattle.std.specs.Ordering.{nat_cmp};
    ghost use Rattle.std.specs.FinMap as map;
    ghost use Rattle.order_book.specs.Order.{OrderState, IsOrder};

    ghost Value = { OrderState };

    ghost coded = { Prim.hlevel (codes, map.code {R = nat_cmp} coded_ℕ coded_ℕ) };

    ghost use Rattle.order_book.specs.State.{state_of};

    ghost view = { state_of };

    ghost invariant = { λ order. IsOrder (state_of order) order.pending.spare B.opening order.seat.accepted };
}

// Makes room for `count` commands more to be pending, and for one more that isn't durable.
fn reserve_both(
    pending: &mut PendingCommands,
    backlog: &mut Backlog,
    count: usize,
) -> Result<(), AllocError>
    ensures commands { pending.new.commands ≡ pending.old.commands }
    ensures bodies { backlog.new.bodies ≡ backlog.old.bodies }
    ensures kept { pending.old.spare ≤ pending.new.spare }
    ensures pending { OnOk result (count ≤ pending.new.spare) }
    ensures backlog { OnOk result (1 ≤ backlog.new.spare) }
{
    pending.reserve(count)?;
    backlog.reserve()
}

impl<B: BoardName> Order<B> {
    /// An order over an image with these states, whose next number is `opening` + 1, with `frames` frames for blocks and
    /// journal areas of `area` bytes. It takes the memory of all frames. Refusal 0 (no memory).
    pub fn new(
        alloc: Global,
        map: AllocMap,
        opening: u64,
        frames: u32,
        area: u32,
        seat: OrderSeat<B>,
    ) -> Result<Order<B>, AllocError>
        requires named { opening ≡ B.opening }
        requires seat { seat ≡ record { history = []; accepted = opening; base = opening } }
        requires area { 2097152 ≤ area }
        requires frames { frames + 3 < 2 ^ 31 }
        requires few { length map ≤ 16777216 }
        ensures made { IfOk result (λ order. order ≡ new_order map opening frames area) }
        ensures image { (image : Image) → ((block : ℕ) → state_at map block ≡ image.kind block) → IsZeroOutsideData image
            → IfOk result (λ order. ShowsImage image order.cache) }
    {
        let cache = Cache::new(alloc, map, frames)?;
        Ok(Order {
            opening,
            durable: opening,
            sealed: opening,
            mark: opening,
            in_hand: 0,
            pending: PendingCommands::new(alloc),
            backlog: Backlog::new(alloc),
            cache,
            area,
            stopped: false,
            seat,
        })
    }

    /// How many blocks the image has.
    pub fn blocks(&self) -> u64
        ensures { result ≡ length self.now.cache.states }
    {
        self.cache.map().blocks()
    }

    /// The state of a block, as all that was accepted left it.
    pub fn state(&self, block: u64) -> Kind
        requires { block < length self.now.cache.states }
        ensures { result ≡ state_at self.now.cache.states block }
    {
        self.cache.map().state(block)
    }

    /// The last number before the first command.
    pub fn opening(&self) -> u64
        ensures opening { result ≡ self.now.opening }
        ensures named { result ≡ B.opening }
    {
        self.opening
    }

    /// The number of the last command that was accepted.
    pub fn mark(&self) -> u64
        ensures mark { result ≡ self.now.mark }
        ensures numbers { IsNumbered self.now }
        ensures place { result ≡ B.opening + length self.now.history }
    {
        self.mark
    }

    /// The durable watermark, as the order knows it: all commands up to this number are stored.
    pub fn durable(&self) -> u64
        ensures { result ≡ self.now.durable }
    {
        self.durable
    }

    /// The last number that is in a group.
    pub fn sealed(&self) -> u64
        ensures { result ≡ self.now.sealed }
    {
        self.sealed
    }

    /// The bytes that the commands above the durable number take in groups.
    pub fn backlog_bytes(&self) -> u64
        ensures { result ≡ sum self.now.bodies }
    {
        self.backlog.total()
    }

    /// How many blocks are dirty.
    pub fn dirty_blocks(&self) -> u32
        ensures { result ≡ length self.now.cache.blocks.dirty }
    {
        self.cache.dirty_blocks()
    }

    /// How many frames hold a block, a clean or a dirty one. No clause says the number.
    pub fn cached_blocks(&self) -> usize {
        self.cache.cached_blocks()
    }

    /// The seat that raises the accepted number, which knows the history. Frames and maps are freed.
    pub fn into_seat(self) -> OrderSeat<B>
        ensures history { result.history ≡ self.history }
        ensures mark { result.accepted ≡ self.mark }
    {
        let Order {
            opening: _,
            durable: _,
            sealed: _,
            mark: _,
            in_hand: _,
            pending: _,
            backlog: _,
            cache: _,
            area: _,
            stopped: _,
            seat,
        } = self;
        seat
    }

    /// Refuses all commands from now on.
    pub fn stop(&mut self)
        ensures { self.new ≡ record self.old { stopped = true } }
    {
        self.stopped = true;
    }

    /// Whether the order was stopped.
    pub fn is_stopped(&self) -> bool
        ensures { result ≡ self.now.stopped }
    {
        self.stopped
    }

    /// Shows a pass the number of the last command that was accepted, and the history. A FLUSH waits for that number.
    pub fn show_mark<T: Trust>(&mut self, board: &Board<B, T>, pass: &mut Pass<B>) -> u64
        ensures mark { result ≡ self.old.mark }
        ensures place { result ≡ B.opening + length self.old.history }
        ensures same { self.new ≡ self.old }
        ensures known { known pass.old ≤ result }
        ensures knew { IsPrefix pass.old.history self.old.history }
        ensures pass { pass.new ≡ record pass.old { history = self.old.history; accepted = result } }
    {
        board.show_accepted(&mut self.seat, pass)
    }

    /// The same for a client that has sent a FLUSH, which waits for that number, or is done in a mode in which none waits.
    pub fn await_mark<T: Trust>(&mut self, board: &Board<B, T>, pass: &mut Pass<B>) -> u64
        requires asked { T.logs → pass.old.client.speaks ≡ true → HasFlushed pass.old.client }
        ensures mark { result ≡ self.old.mark }
        ensures place { result ≡ B.opening + length self.old.history }
        ensures same { self.new ≡ self.old }
        ensures known { known pass.old ≤ result }
        ensures knew { IsPrefix pass.old.history self.old.history }
        ensures pass { pass.new
            ≡ record pass.old { history = self.old.history; accepted = result; client = flushing T.mode result pass.old.client } }
    {
        board.await_accepted(&mut self.seat, pass)
    }

    /// The history as it is, to be told to the keeper's seat.
    pub fn note<T: Trust>(&mut self, board: &Board<B, T>) -> Told<B>
        ensures same { self.new ≡ self.old }
        ensures told { (result.history ≡ self.old.history) × (result.accepted ≡ self.old.mark) }
    {
        board.note(&mut self.seat)
    }

    /// Compares what was told with the history: it is a prefix.
    pub fn compare<T: Trust>(&mut self, board: &Board<B, T>, told: Told<B>)
        ensures same { self.new ≡ self.old }
        ensures told { IsPrefix told.history self.old.history }
    {
        board.compare(&mut self.seat, told);
    }

    /// Tells the keeper's seat the whole history. What that seat knew is a prefix of it, and the order's base is no greater than
    /// the seat's.
    pub fn meet<T: Trust>(&mut self, board: &Board<B, T>, keeper: &mut KeeperSeat<B>)
        ensures same { self.new ≡ self.old }
        ensures knew { IsPrefix keeper.old.history self.old.history }
        ensures base { self.old.base ≤ keeper.old.base }
        ensures keeper { keeper.new ≡ record keeper.old { history = self.old.history; accepted = self.old.mark } }
    {
        board.brief(&mut self.seat, keeper);
    }

    /// Learns the base of the keeper's seat.
    pub fn learn_base<T: Trust>(&mut self, board: &Board<B, T>, seat: &mut KeeperSeat<B>)
        ensures order { self.new ≡ record self.old { base = max self.old.base seat.old.base } }
        ensures same { seat.new ≡ seat.old }
    {
        board.brief_base(&mut self.seat, seat);
    }

    /// Accepts the command as the last one, for a pass: it raises the board to the command's number, and returns that. A refusal
    /// hands the command back.
    ///
    /// The refusals, in the order in which they are looked for: 18 (stopped), 9 (numbers full), 17 (no room), 0 (no memory).
    ///
    /// The server accepts requests, whose edits become commands, and doesn't call it. It is for callers that have commands.
    pub fn accept<T: Trust>(
        &mut self,
        board: &Board<B, T>,
        pass: &mut Pass<B>,
        command: Command,
    ) -> Result<u64, (OrderFault, Command)>
        requires command { IsCommand (length self.old.cache.states) command }
        requires asked { T.logs → HasAsked T.trusted T.image self.old.history (change_of command) pass.old.client }
        ensures number { IfOk result (λ number. number ≡ self.old.mark + 1) }
        ensures accepted { OnOk result (self.new ≡ with_command self.old command) }
        ensures view { OnOk result (ShowsCommand (change_of command) self.old.cache self.new.cache) }
        ensures image { OnOk result ((image : Image) → ShowsImage image self.old.cache → ShowsImage (image_after (change_of command) image) self.new.cache) }
        ensures blocks { length self.new.cache.states ≡ length self.old.cache.states }
        ensures numbers { IsNumbered self.old }
        ensures place { self.old.mark ≡ B.opening + length self.old.history }
        ensures handed_back { IfErr result (λ refused. refused.1 ≡ command) }
        ensures unchanged { OnErr result (self.new ≡ self.old) }

        // The number is above all that the pass had seen or was told, the command is the pass's own under it, and the history that
        // the pass then knows has it as its last, after all that the pass knew.
        ensures known { IfOk result (λ number. known pass.old < number) }
        ensures knew { OnOk result (IsPrefix pass.old.history self.old.history) }
        ensures pass { IfOk result (λ number. pass.new
            ≡ record pass.old {
              history = self.new.history;
              accepted = number;
              own = record { count = pass.old.own.count + 1; last = Some (record { number = number; change = change_of command }) };
              client = accepting T.mode number pass.old.client;
            }) }
        ensures pass_unchanged { OnErr result (pass.new ≡ pass.old) }

        // Each refusal comes exactly where it is due and none before it is.
        ensures stopped { IsErrAnd result (λ refused. refused.0 ≡ OrderFault.Stopped) ↔ (self.old.stopped ≡ true) }
        ensures numbers_full { IsErrAnd result (λ refused. refused.0 ≡ OrderFault.NumbersFull)
            ↔ ((self.old.stopped ≡ false) × (self.old.mark ≡ 18446744073709551615)) }
        ensures no_room { IsErrAnd result (λ refused. refused.0 ≡ OrderFault.NoRoom)
            ↔ ((self.old.stopped ≡ false) × (self.old.mark < 18446744073709551615) × (has_room self.old command ≡ false)) }
    {
        let _mark = self.mark();
        if let Some(fault) = self.refusal(&command) {
            return Err((fault, command));
        }
        self.take(board, pass, command)
    }

    // Takes a command that nothing but memory refuses.
    fn take<T: Trust>(
        &mut self,
        board: &Board<B, T>,
        pass: &mut Pass<B>,
        command: Command,
    ) -> Result<u64, (OrderFault, Command)>
        requires command { IsCommand (length self.old.cache.states) command }
        requires asked { T.logs → HasAsked T.trusted T.image self.old.history (change_of command) pass.old.client }
        requires free { refusal_of self.old command ≡ None }
        ensures number { IfOk result (λ number. number ≡ self.old.mark + 1) }
        ensures accepted { OnOk result (self.new ≡ with_command self.old command) }
        ensures view { OnOk result (ShowsCommand (change_of command) self.old.cache self.new.cache) }
        ensures image { OnOk result ((image : Image) → ShowsImage image self.old.cache → ShowsImage (image_after (change_of command) image) self.new.cache) }
        ensures blocks { length self.new.cache.states ≡ length self.old.cache.states }
        ensures handed_back { IfErr result (λ refused. refused.1 ≡ command) }
        ensures unchanged { OnErr result (self.new ≡ self.old) }
        ensures known { IfOk result (λ number. known pass.old < number) }
        ensures knew { OnOk result (IsPrefix pass.old.history self.old.history) }
        ensures pass { IfOk result (λ number. pass.new
            ≡ record pass.old {
              history = self.new.history;
              accepted = number;
              own = record { count = pass.old.own.count + 1; last = Some (record { number = number; change = change_of command }) };
              client = accepting T.mode number pass.old.client;
            }) }
        ensures pass_unchanged { OnErr result (pass.new ≡ pass.old) }
        ensures memory { IfErr result (λ refused. refused.0 ≡ OrderFault.NoMemory) }
    {
        let Ok(()) = reserve_both(&mut self.pending, &mut self.backlog, self.in_hand + 1) else {
            return Err((OrderFault::NoMemory, command));
        };
        let Ok(()) = apply(&mut self.cache, &command, self.mark + 1) else {
            return Err((OrderFault::NoMemory, command));
        };
        let (number, command) = board.raise_accepted(&mut self.seat, pass, command);
        self.mark = number;
        let body = command.body_bytes();
        self.backlog.push(body as u32);
        self.pending.push(command);
        Ok(self.mark)
    }

    // Why a command is refused before any growth.
    fn refusal(&self, command: &Command) -> Option<OrderFault>
        requires { IsCommand (length self.now.cache.states) command.now }
        ensures { result ≡ refusal_of self.now command.now }
    {
        if self.stopped {
            return Some(OrderFault::Stopped);
        }
        if self.mark == u64::MAX {
            return Some(OrderFault::NumbersFull);
        }
        if self.has_room(command) {
            return None;
        }
        Some(OrderFault::NoRoom)
    }

    fn has_room(&self, command: &Command) -> bool
        requires { IsCommand (length self.now.cache.states) command.now }
        ensures { result ≡ has_room self.now command.now }
    {
        has_frames(&self.cache, command)
            && self.backlog.total() + command.body_bytes() <= MOST_BACKLOG_BYTES
    }

    /// Takes the longest prefix of the pending commands that fits into a group. Their places stay free for `put_back`.
    ///
    /// None if nothing is pending, or if what was sealed isn't durable yet: a group is in hand, or was stored and not published.
    /// Refusal 0 (no memory).
    pub fn seal(&mut self) -> Result<Option<Group>, OrderFault>
        ensures group { IfOk result (λ sealed. IfSome sealed (Seals self.old self.new)) }
        ensures in_hand { IfOk result (λ sealed. IfSome sealed (IsInHand self.new)) }
        ensures none { (result ≡ Ok None) ↔ ((self.old.pending ≡ []) ⊎ (self.old.durable < self.old.sealed)) }
        ensures unchanged { IfOk result (λ sealed. IfNone sealed (self.new ≡ self.old)) }
        ensures fault { IfErr result (λ fault. fault ≡ OrderFault.NoMemory) }
        ensures err { OnErr result (self.new ≡ self.old) }
    {
        if self.pending.is_empty() || self.durable < self.sealed {
            return Ok(None);
        }
        let count = self.pending.longest(self.body_limit());
        let Ok(commands) = self.pending.take(count) else {
            return Err(OrderFault::NoMemory);
        };
        let first = self.sealed + 1;
        self.sealed += count as u64;
        self.in_hand = count;
        Ok(Some(Group::new(first, commands)))
    }

    // The most bytes of a group's body.
    fn body_limit(&self) -> u64
        ensures { result ≡ body_limit self.now.area }
    {
        (self.area as u64 - BYTES_ROUND_BODY).min(MOST_BODY_BYTES as u64)
    }

    /// Whether the group is the one that was sealed last, and wasn't made pending again. Meanwhile `seal` may have given another one.
    pub fn is_in_hand(&self, group: &Group) -> bool
        ensures { IsTrue result ↔ IsInHand self.now group.now }
    {
        let commands = group.commands();
        commands.len() == self.in_hand
            && group.first() == self.sealed - self.in_hand as u64 + 1
            && have_small_bodies(commands)
    }

    /// Makes the group in hand, the last that was sealed, pending again: the list is as it was before that `seal`, with what was
    /// accepted since.
    pub fn put_back(&mut self, group: Group)
        requires { IsInHand self.old group }
        ensures pending { self.new ≡ with_group self.old group }
        ensures restores { (before : OrderState) → Seals before self.old group → self.new ≡ record before { in_hand = 0 } }
    {
        let (first, commands) = group.into_parts();
        self.pending.put_back(commands);
        self.sealed = first - 1;
        self.in_hand = 0;
    }

    /// Raises the durable number of order and board to the keeper's count, if that lies between the durable number and the last
    /// accepted one.
    pub fn publish<D: Disk, T: Trust>(
        &mut self,
        board: &Board<B, T>,
        seat: &mut KeeperSeat<B>,
        keeper: &Keeper<D>,
    )
        ensures order { self.new ≡ with_durable self.old keeper.now.count }
        ensures seat { PublishesTo seat.old self.old keeper.now.count seat.new }
    {
        let count = keeper.count();
        if self.durable <= count && count <= self.mark {
            board.brief(&mut self.seat, seat);
            board.raise_durable(seat, keeper);
            self.backlog.forget(count - self.durable);
            self.durable = count;
        }
    }

    /// Makes those dirty blocks clean whose last write's number is at most the keeper's base, and tells whether there were any. What is
    /// known of the image stays.
    pub fn clean<D: Disk>(&mut self, keeper: &Keeper<D>) -> bool
        ensures new { self.new ≡ with_clean self.old keeper.now.base }
        ensures view { ShowsClean keeper.now.base self.old.cache self.new.cache }
        ensures image { (image : Image) → ShowsImage image self.old.cache → ShowsImage image self.new.cache }
        ensures any { IsTrue result ↔ (len self.new.dirty < len self.old.dirty) }
        ensures none { (result ≡ false) ↔ (self.new ≡ self.old) }
    {
        clean_through(&mut self.cache, keeper.base())
    }

    /// Reads blocks from `first` on, as all that was accepted left them. Refusal 14 (missing block), exactly if one that is data
    /// has no frame; the slice then holds any bytes.
    ///
    /// The server reads block by block and doesn't call it. It is for callers that want a range or nothing.
    pub fn read_cached(&self, first: u64, into: &mut [[u8; 4096]]) -> Result<(), Missing>
        requires range { first + length into.old ≤ length self.now.cache.states }
        ensures ok { OnOk result ((k : ℕ) (d : List ℕ) → k < length into.new → bytes_seen self.now.cache (first + k) ≡ Some (slice_index_or into.new k d)) }
        ensures image { (image : Image) → ShowsImage image self.now.cache → OnOk result ((j k : ℕ) → j < length into.new → k < 4096
            → slice_index (slice_index_or into.new j []) k ≡ image.byte (4096 * (first + j) + k)) }
        ensures missing { IsErr result ↔ LacksBytes self.now.cache first (length into.old) }
    {
        self.cache.read_cached(first, into)
    }

    /// Whether `count` blocks from `first` on are all in memory: a read of them needs no device.
    pub fn holds(&self, first: u64, count: u64) -> bool
        requires range { first + count ≤ length self.now.cache.states }
        ensures { (result ≡ false) ↔ LacksBytes self.now.cache first count }
    {
        let _blocks = self.blocks();
        holds(&self.cache, first, count)
    }

    /// The bytes from this offset on, as all that was accepted left them, of blocks that are all in memory. They take the memory of
    /// `room`, and more if that isn't enough. Refusal 0 (no memory).
    pub fn copy_in_memory(
        &self,
        room: Vec<u8>,
        offset: u64,
        count: usize,
    ) -> Result<Vec<u8>, AllocError>
        requires range { offset + count ≤ 4096 * length self.now.cache.states }
        requires few { length self.now.cache.states ≤ 16777216 }
        requires held { LacksBytes self.now.cache (offset / 4096) (blocks_met offset count) → ⊥ }
        ensures size { IfOk result (λ bytes. vec_len bytes ≡ count) }
        ensures full { OnErr result (vec_capacity room < count) }
        ensures there { IfOk result (λ bytes. (k : ℕ) → k < count → bytes_seen self.now.cache ((offset + k) / 4096) ≢ None) }
        ensures in_memory { IfOk result (λ bytes. (k : ℕ) (block : List ℕ) → k < count → bytes_seen self.now.cache ((offset + k) / 4096) ≡ Some block
            → slice_index bytes.items k ≡ slice_index block ((offset + k) % 4096)) }
        ensures image { (image : Image) → ShowsImage image self.now.cache → IfOk result (λ bytes. (k : ℕ) → k < count → slice_index bytes.items k ≡ image.byte (offset + k)) }
    {
        let _blocks = self.blocks();
        copy_in_memory(room, &self.cache, offset, count)
    }

    /// Reads blocks from `first` on, as all that was accepted left them: those in memory from there, and each run of the others
    /// from the data region in one call of the device. These are then kept in memory, as far as there are frames that aren't
    /// dirty and memory doesn't run out, which it tells.
    ///
    /// If all of them are in memory nothing changes. Otherwise refusals 1 (device fault), and 16 (failed) after an earlier one;
    /// `into` then holds any bytes.
    pub fn read_with<D: Disk>(
        &mut self,
        keeper: &mut Keeper<D>,
        first: u64,
        into: &mut [u8],
    ) -> Result<Kept, KeeperFault>
        requires whole { length into.old % 4096 ≡ 0 }
        requires range { first + length into.old / 4096 ≤ length self.old.cache.states }
        requires device { first + length into.old / 4096 ≤ keeper.old.geometry.blocks }
        ensures new { self.new ≡ record self.old { cache = self.new.cache } }
        ensures err { OnErr result (self.new ≡ self.old) }
        ensures hit { (LacksBytes self.old.cache first (length into.old / 4096) → ⊥) → OnOk result ((self.new ≡ self.old) × (keeper.new ≡ keeper.old)) }
        ensures lacks { OnErr result (LacksBytes self.old.cache first (length into.old / 4096)) }
        ensures failed { (result ≡ Err KeeperFault.Failed) ↔ (IsTrue keeper.old.failed × LacksBytes self.old.cache first (length into.old / 4096)) }
        ensures only { IfErr result (λ fault. (fault ≡ KeeperFault.DeviceFault) ⊎ (fault ≡ KeeperFault.Failed)) }

        // The bytes of a block are those in memory, where it has some, and else those of the base.
        ensures in_memory { OnOk result ((j k : ℕ) (bytes : List ℕ) → 4096 * j < length into.new → k < 4096
            → bytes_seen self.old.cache (first + j) ≡ Some bytes → slice_index into.new (4096 * j + k) ≡ slice_index bytes k) }
        ensures from_base { D.honest keeper.old.disk → (base : Image) (fronts : List (List Change)) (last : List Change) → Holds keeper.old (D.state keeper.old.disk) base fronts last
            → OnOk result ((j k : ℕ) → 4096 * j < length into.new → k < 4096 → bytes_seen self.old.cache (first + j) ≡ None
            → base.kind (first + j) ≡ Data → is_written (first + j) (joined fronts) ≡ false
            → slice_index into.new (4096 * j + k) ≡ base.byte (4096 * (first + j) + k)) }
        ensures kept { IfOk result (IsKept first into.new self.old.cache self.new.cache) }
        ensures view { OnOk result (ShowsRead first into.new self.old.cache self.new.cache) }

        // So they are those of the image, where the base has what is data and not dirty, and the image is shown still.
        ensures image { D.honest keeper.old.disk → (base image : Image) (fronts : List (List Change)) (last : List Change) → Holds keeper.old (D.state keeper.old.disk) base fronts last
            → ShowsImage image self.old.cache → IsCleanAt base (joined fronts) image self.old.dirty
            → OnOk result ((j k : ℕ) → 4096 * j < length into.new → k < 4096 → slice_index into.new (4096 * j + k) ≡ image.byte (4096 * (first + j) + k)) }
        ensures shown { D.honest keeper.old.disk → (base image : Image) (fronts : List (List Change)) (last : List Change) → Holds keeper.old (D.state keeper.old.disk) base fronts last
            → ShowsImage image self.old.cache → IsCleanAt base (joined fronts) image self.old.dirty → OnOk result (ShowsImage image self.new.cache) }

        // The device is read alone, and the keeper holds what it held.
        ensures size { length into.new ≡ length into.old }
        ensures keeper_ok { OnOk result (keeper.new ≡ record keeper.old { disk = keeper.new.disk }) }
        ensures keeper_err { IfErr result (λ fault. keeper.new ≡ refused_by fault keeper.old keeper.new.disk) }
        ensures extent { D.extent keeper.new.disk ≡ D.extent keeper.old.disk }
        ensures faults_ok { OnOk result (D.faults keeper.new.disk ≡ D.faults keeper.old.disk) }
        ensures faults_err { IfErr result (λ fault. D.faults keeper.new.disk ≡ faults_by fault (D.faults keeper.old.disk)) }
        ensures honest { D.honest keeper.new.disk ↔ D.honest keeper.old.disk }
        ensures only_read { D.honest keeper.old.disk → IsOnlyRead (D.state keeper.old.disk) (D.state keeper.new.disk) }
        ensures holds { D.honest keeper.old.disk → (base : Image) (fronts : List (List Change)) (last : List Change) → Holds keeper.old (D.state keeper.old.disk) base fronts last
            → OnOk result (Holds keeper.new (D.state keeper.new.disk) base fronts last) }
    {
        let held = read_blocks(&self.cache, keeper, first, into)?;
        Ok(keep_blocks(&mut self.cache, first, held, into))
    }

    /// Of `count` blocks from `first` on, the span from the first that isn't in memory to the last: a read of them needs it from
    /// the device. It is empty if all are in memory.
    pub fn missing(&self, first: u64, count: u64) -> Span
        requires range { first + count ≤ length self.now.cache.states }
        requires some { 0 < count }
        ensures bounds { (first ≤ result.first) × (result.first < first + count) × (result.first ≤ result.end) × (result.end ≤ first + count) }
        ensures all { (block : ℕ) → first ≤ block → block < first + count → bytes_seen self.now.cache block ≡ None → LiesIn block result }
        ensures begins { result.first < result.end → bytes_seen self.now.cache result.first ≡ None }
        ensures ends { (block : ℕ) → result.first ≤ block → block + 1 ≡ result.end → bytes_seen self.now.cache block ≡ None }
    {
        let _blocks = self.blocks();
        missing_span(&self.cache, first, count)
    }

    /// Completes a read of blocks from `first` on, as all that was accepted left them, of which a span was read before. Blocks
    /// that are in memory replace the bytes read. The others of a short span are kept in memory, as far as there are frames
    /// that aren't dirty.
    ///
    /// False if a block that isn't in memory lies outside the span: then nothing has changed, and `into` holds any bytes.
    pub fn read_over(&mut self, first: u64, span: Span, into: &mut [u8]) -> bool
        requires whole { length into.old % 4096 ≡ 0 }
        requires range { first + length into.old / 4096 ≤ length self.old.cache.states }
        requires from { first ≤ span.first }
        requires some { span.first ≤ span.end }
        requires end { span.end ≤ first + length into.old / 4096 }
        ensures new { self.new ≡ record self.old { cache = self.new.cache } }
        ensures size { length into.new ≡ length into.old }
        ensures done { IsTrue result → (j : ℕ) → 4096 * j < length into.old → bytes_seen self.old.cache (first + j) ≡ None → LiesIn (first + j) span }
        ensures undone { result ≡ false → (self.new ≡ self.old)
            × (j : ℕ) × (4096 * j < length into.old) × (bytes_seen self.old.cache (first + j) ≡ None) × (LiesIn (first + j) span → ⊥) }

        // The bytes of a block are those in memory, where it has some, and else those handed in.
        ensures in_memory { IsTrue result → (j k : ℕ) (bytes : List ℕ) → 4096 * j < length into.new → k < 4096
            → bytes_seen self.old.cache (first + j) ≡ Some bytes → slice_index into.new (4096 * j + k) ≡ slice_index bytes k }
        ensures handed { IsTrue result → (j k : ℕ) → 4096 * j < length into.new → k < 4096 → bytes_seen self.old.cache (first + j) ≡ None
            → slice_index into.new (4096 * j + k) ≡ slice_index into.old (4096 * j + k) }
        ensures view { IsTrue result → ShowsRead first into.new self.old.cache self.new.cache }

        // So they are those of the image, where those handed in are the base's, and the image is shown still.
        ensures image { (base image : Image) (front : List Change) → GivesBase first into.old self.old.cache base front
            → ShowsImage image self.old.cache → IsCleanAt base front image self.old.dirty
            → IsTrue result → (j k : ℕ) → 4096 * j < length into.new → k < 4096 → slice_index into.new (4096 * j + k) ≡ image.byte (4096 * (first + j) + k) }
        ensures shown { (base image : Image) (front : List Change) → GivesBase first into.old self.old.cache base front
            → ShowsImage image self.old.cache → IsCleanAt base front image self.old.dirty → IsTrue result → ShowsImage image self.new.cache }
    {
        let _blocks = self.blocks();
        if !put_cached_over(&self.cache, first, span, into) {
            return false;
        }
        if span.end - span.first <= MOST_KEPT {
            let _kept = keep_blocks(&mut self.cache, first, (span.first - first) as usize, into);
        }
        true
    }

    /// The longest runs of blocks in one state, from one block on up to another, the first `limit` of them, as all that
    /// was accepted left them. Refusal 0 (no memory).
    pub fn status(
        &self,
        alloc: Global,
        from: u64,
        to: u64,
        limit: usize,
    ) -> Result<Vec<Run>, AllocError>
        requires order { from ≤ to }
        requires inside { to ≤ length self.now.cache.states }
        ensures { IfOk result (λ runs. AreRuns self.now.cache.states from to limit runs.items) }
    {
        self.cache.map().runs(alloc, from, to, limit)
    }
}
