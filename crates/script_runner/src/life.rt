ghost use Rattle.std.specs.Prelude.{◌≡◌, ◌⊎◌, ◌≢◌, ◌↔◌, ◌<◌, ◌*◌, ◌^◌, ℕ, true, List, [], ◌∷◌, length, take, vec_len, IfErr, IfOk, IsTrue, OnOk};
ghost use Rattle.std.specs.Option.{ForSome};
ghost use Rattle.checkpoint.specs.Opening.{StandsAs, disk_after};
ghost use Rattle.checkpoint.specs.Recovery.{IsRecovered};
ghost use Rattle.device_image.specs.Holds.{Holds};
ghost use Rattle.device_image.specs.Keeps.{Keeps};
ghost use Rattle.disk_model.specs.Disk.{LeavesOnly, MayLeave};
ghost use Rattle.image_model.specs.Image.{Image};
ghost use Rattle.image_model.specs.Layout.{area_size_of};
ghost use Rattle.image_model.specs.declared.command.Kind.{Kind};
ghost use Rattle.image_model.specs.declared.layout.Layout.TheVariants as Layout;
ghost use Rattle.script_runner.specs.Life.{IsLifeOf};
ghost use Rattle.script_runner.specs.inner.Life.{FindsNoMore, IsOpened, LeavesNoMore};
ghost use Rattle.order_book.specs.Order.{IsInHand, new_order};
ghost use Rattle.order_book.specs.Shown.{ShowsImage};
ghost use Rattle.export_steps.specs.Bench.{new_bench};
ghost use Rattle.export_steps.specs.Life.{IsRehearsed};
ghost use Rattle.export_model.specs.World.{World};

use crate::script_line::{CONNECTIONS, Clearing, Filling, Range, Setup};
use bitflags::Flags;
use checkpoint::{Keeper, KeeperFault};
use device_image::keeper_laws;
use disk_model::{CallKind, Disk, SimDisk};
use export_steps::{Bench, Event, Step, StepFault, fresh_parts_law, rehearse};
use image_model::{BLOCK_BYTES, Kind};
use marks::{BlankBoard, Board, BoardName, KeeperSeat, Opened};
use nbd_wire::{
    Answer, BLOCK_STATUS, CommandFlags, FLUSH, MAX_PAYLOAD, READ, Request, RequestHead,
    SessionFlags, TRIM, WRITE, WRITE_ZEROES,
};
use order_book::Order;
use request_core::fresh_order;
use std::alloc::{AllocError, Global};
use std::slice;

// What a script's connections have agreed on.
const FLAGS: SessionFlags = SessionFlags {
    structured: true,
    context: true,
};

/// What a step did, as a script tells it.
#[derive(Clone, Copy)]
pub enum Told {
    Done,
    Skipped,
    /// The refusal.
    Failed(StepFault),
    /// A connection was answered ([`last_answer`]).
    Answered,
}

/// Neighbouring blocks of one state that begin with the same byte.
#[derive(Clone, Copy)]
pub struct BlockRun {
    pub first: u64,
    pub blocks: u64,
    pub kind: Kind,
    pub byte: u8,
}

/// Opens the device, which recovers it. If `upgrades`, it is made one of layout 2.
pub fn keeper_of<D: Disk>(
    alloc: Global,
    disk: D,
    upgrades: bool,
) -> Result<Keeper<D>, (KeeperFault, D)>
    ensures extent { D.extent (disk_after result) ≡ D.extent disk }
    ensures recovered { IfOk result IsRecovered }
    ensures honest { D.honest (disk_after result) ↔ D.honest disk }
    ensures layout { IsTrue upgrades → IfOk result (λ keeper. keeper.geometry.layout ≡ Layout.Two) }
    ensures opened { D.honest disk → IfOk result (λ keeper. IsOpened (D.state disk) upgrades keeper (D.state keeper.disk)) }
    ensures left { D.honest disk → (found : List ℕ) × MayLeave (D.state disk) found
        × LeavesOnly (D.state disk) (D.state (disk_after result)) (λ content. MayLeave (D.state disk) content ⊎ StandsAs found content) }
{
    if upgrades {
        return Keeper::upgrade(alloc, disk);
    }
    Keeper::open(alloc, disk)
}

/// Opens the device, which recovers it, and reads what its blocks hold. If `upgrades`, it is made one of layout 2.
pub fn open<D: Disk>(
    alloc: Global,
    disk: D,
    upgrades: bool,
) -> Result<(Keeper<D>, Vec<BlockRun>), (KeeperFault, D)>
    ensures recovered { IfOk result (λ opened. IsRecovered opened.0) }
    ensures honest { D.honest disk → IfOk result (λ opened. D.honest opened.0.disk) }
    ensures layout { IsTrue upgrades → IfOk result (λ opened. opened.0.geometry.layout ≡ Layout.Two) }
    ensures opened { D.honest disk → IfOk result (λ opened. IsOpened (D.state disk) upgrades opened.0 (D.state opened.0.disk)) }
    ensures refused { D.honest disk → IfErr result (λ refused. FindsNoMore (D.state disk) (D.state refused.1)) }
{
    keeper_laws::<D>();
    match keeper_of(alloc, disk, upgrades) {
        Ok(mut keeper) => match runs(alloc, &mut keeper) {
            Ok(runs) => Ok((keeper, runs)),
            Err(fault) => Err((fault, keeper.into_disk())),
        },
        Err((fault, disk)) => Err((fault, disk)),
    }
}

// The longest runs of blocks with equal state and equal first byte, of a keeper whose journal is empty: map and data are
// then all that there is.
fn runs<D: Disk>(alloc: Global, keeper: &mut Keeper<D>) -> Result<Vec<BlockRun>, KeeperFault>
    ensures ok { OnOk result (keeper.new ≡ record keeper.old { disk = keeper.new.disk }) }
    ensures honest { D.honest keeper.new.disk ↔ D.honest keeper.old.disk }
    ensures held { D.honest keeper.old.disk → (image : Image) → Holds keeper.old (D.state keeper.old.disk) image [] []
        → OnOk result (Holds keeper.new (D.state keeper.new.disk) image [] []) }
    ensures left { D.honest keeper.old.disk → LeavesNoMore (D.state keeper.old.disk) (D.state keeper.new.disk) }
{
    let map = keeper.map(alloc)?;
    let mut runs: Vec<BlockRun> = Vec::new(alloc);
    for block in 0..keeper.geometry().blocks {
        let kind = map.state(block);
        let byte = first_byte(keeper, block, kind)?;
        add_block(&mut runs, block, kind, byte)?;
    }
    Ok(runs)
}

// The first byte of a block of this state; only data are read.
fn first_byte<D: Disk>(keeper: &mut Keeper<D>, block: u64, kind: Kind) -> Result<u8, KeeperFault>
    requires inside { block < keeper.old.geometry.blocks }
    ensures ok { OnOk result (keeper.new ≡ record keeper.old { disk = keeper.new.disk }) }
    ensures honest { D.honest keeper.new.disk ↔ D.honest keeper.old.disk }
    ensures held { D.honest keeper.old.disk → (image : Image) → Holds keeper.old (D.state keeper.old.disk) image [] []
        → OnOk result (Holds keeper.new (D.state keeper.new.disk) image [] []) }
    ensures left { D.honest keeper.old.disk → LeavesNoMore (D.state keeper.old.disk) (D.state keeper.new.disk) }
{
    if kind != Kind::Data {
        return Ok(0);
    }
    let mut bytes = [0u8; BLOCK_BYTES as usize];
    keeper.read_base(block, &mut bytes)?;
    Ok(bytes[0])
}

/// A device from one opening to the next crash. It can't be let go, because a group may be in hand: it is spent by `end`.
///
/// On a device that keeps to the model it is always one of a world.
pub struct Life<B: BoardName, D: Disk> {
    pub(crate) board: Board<B>,
    pub(crate) seat: KeeperSeat<B>,
    pub(crate) keeper: Keeper<D>,
    pub(crate) order: Order<B>,
    pub(crate) bench: Bench<B>,
    ghost in_hand: { ForSome bench.connections.group (IsInHand order) },
    ghost blocks: { length order.cache.states ≡ keeper.geometry.blocks },
    ghost of_world: { ∥ (D.honest keeper.disk → (world : World) × IsLifeOf D.state D.faults D.honest world order keeper bench) ∥₁ },
}

// The board under its name with the keeper's seat, and the order and the bench with which the life of an opened device begins.
fn first_parts<B: BoardName, D: Disk>(
    alloc: Global,
    blank: BlankBoard,
    keeper: &Keeper<D>,
    setup: Setup,
) -> Result<(Board<B>, KeeperSeat<B>, Order<B>, Bench<B>), AllocError>
    requires board { blank.board ≡ B.board }
    requires named { blank.opening ≡ B.opening }
    requires opening { blank.opening ≡ keeper.now.count }
    ensures order { IfOk result (λ parts. (states : List Kind) × (length states ≡ keeper.now.geometry.blocks)
        × (parts.2 ≡ new_order states keeper.now.count setup.frames (area_size_of keeper.now.geometry.layout keeper.now.geometry.area))) }
    ensures image { (image : Image) → Holds keeper.now (D.state keeper.now.disk) image [] [] → IfOk result (λ parts. ShowsImage image parts.2.cache) }
    ensures bench { IfOk result (λ parts. parts.3 ≡ new_bench 16 (record { structured = true; context = true }) setup.mode) }
    ensures count { IfOk result (λ parts. keeper.now.count < 2 ^ 64) }
{
    let Opened {
        board,
        order: order_seat,
        keeper: seat,
        roster: _,
        passes,
    } = blank.open::<B>(alloc, CONNECTIONS)?;
    let order = fresh_order(alloc, keeper, setup.frames, order_seat)?;
    let bench = Bench::new(alloc, passes, FLAGS, setup.mode)?;
    Ok((board, seat, order, bench))
}

impl<B: BoardName, D: Disk> Life<B, D> {
    /// A life of the device of a keeper that was opened, over a board that gets its name here. If memory runs out, the device
    /// is handed back.
    pub fn begin(
        alloc: Global,
        blank: BlankBoard,
        keeper: Keeper<D>,
        setup: Setup,
    ) -> Result<Life<B, D>, D>
        requires board { blank.board ≡ B.board }
        requires named { blank.opening ≡ B.opening }
        requires opening { blank.opening ≡ keeper.count }
        requires recovered { IsRecovered keeper }
        requires keeps { ∥ (D.honest keeper.disk → (image : Image) × Keeps keeper (D.state keeper.disk) image keeper.count) ∥₁ }
        ensures { IfOk result (λ life. life.keeper ≡ keeper) }
    {
        keeper_laws::<D>();
        fresh_parts_law::<D>();
        match first_parts(alloc, blank, &keeper, setup) {
            Ok((board, seat, order, bench)) => Ok(Life {
                board,
                seat,
                keeper,
                order,
                bench,
            }),
            Err(_) => Err(keeper.into_disk()),
        }
    }

    /// Ends it, and gives the device as it is and what each step did.
    pub fn end(self) -> (D, Vec<Event>)
        ensures disk { result.0 ≡ self.keeper.disk }
        ensures log { result.1.items ≡ self.bench.log }
    {
        let Life {
            board: _,
            seat: _,
            keeper,
            mut order,
            bench,
        } = self;
        let log = bench.close(&mut order);
        (keeper.into_disk(), log)
    }

    /// What each step did, the first of them first.
    pub fn log(&self) -> &[Event]
        ensures { result.now ≡ self.now.bench.log }
    {
        self.bench.log()
    }

    /// Carries out one step, which is one of the world.
    pub fn step(&mut self, step: Step) -> Told
        ensures extent { D.extent self.new.keeper.disk ≡ D.extent self.old.keeper.disk }
        ensures honest { D.honest self.new.keeper.disk ↔ D.honest self.old.keeper.disk }
        ensures world { D.honest self.old.keeper.disk → (world : World) → IsLifeOf D.state D.faults D.honest world self.old.order self.old.keeper self.old.bench → (next : World) × (done : ℕ)
            × IsRehearsed world next (take done (step ∷ [])) self.new.order self.new.keeper (D.faults self.new.keeper.disk) self.new.bench
            (D.honest self.new.keeper.disk) (D.state self.old.keeper.disk) (D.state self.new.keeper.disk) }
    {
        let ran = rehearse(
            slice::from_ref(&step),
            &mut self.order,
            &mut self.keeper,
            &self.board,
            &mut self.seat,
            &mut self.bench,
        );
        match ran {
            Ok(()) => last_event(self.bench.log()),
            Err(_) => Told::Failed(StepFault::NoMemory),
        }
    }
}

impl<B: BoardName> Life<B, SimDisk> {
    /// Whether a stop of the device was met.
    pub fn is_stopped(&self) -> bool {
        self.keeper.is_stopped()
    }

    /// The `k`-th call of this kind from now on fails.
    pub fn fail(&mut self, kind: CallKind, k: u64)
        ensures { ⟦<SimDisk as Disk>⟧.extent self.new.keeper.disk ≡ ⟦<SimDisk as Disk>⟧.extent self.old.keeper.disk }
    {
        self.keeper.fail(kind, k);
    }

    /// The device stops at the `k`-th call from now on.
    pub fn stop_at(&mut self, k: u64)
        ensures { ⟦<SimDisk as Disk>⟧.extent self.new.keeper.disk ≡ ⟦<SimDisk as Disk>⟧.extent self.old.keeper.disk }
    {
        self.keeper.stop_at(k);
    }
}

// Adds the block after the runs: to the last of them, or as a run of its own.
fn add_block(runs: &mut Vec<BlockRun>, first: u64, kind: Kind, byte: u8) -> Result<(), AllocError> {
    if let Some(run) = runs.last_mut()
        && run.kind == kind
        && run.byte == byte
    {
        run.blocks = run.blocks.saturating_add(1);
        return Ok(());
    }
    runs.push(BlockRun {
        first,
        blocks: 1,
        kind,
        byte,
    })?;
    Ok(())
}

/// The answer that was given last, by a log; none where the last step gave none.
pub fn last_answer(log: &[Event]) -> Option<&Answer> {
    match log.last() {
        Some(Event::Answered(_, answer)) => Some(answer),
        _ => None,
    }
}

// What the last event of a log says.
fn last_event(log: &[Event]) -> Told {
    let Some(event) = log.last() else {
        return Told::Skipped;
    };
    match event {
        Event::Skipped => Told::Skipped,
        Event::Failed(fault) => Told::Failed(*fault),
        Event::Answered(..) => Told::Answered,
        Event::Sent(..) | Event::Numbered(..) | Event::Took => Told::Done,
    }
}

/// A FLUSH.
pub fn flush(alloc: Global, cookie: u64) -> Request {
    Request::new(
        RequestHead {
            flags: 0,
            kind: FLUSH,
            cookie,
            offset: 0,
            length: 0,
        },
        Vec::new(alloc),
    )
}

/// A WRITE; the data of a long one aren't kept.
pub fn write(alloc: Global, cookie: u64, filling: Filling) -> Result<Request, AllocError> {
    let head = head_of(cookie, WRITE, 0, filling.range);
    let kept = if head.length <= MAX_PAYLOAD {
        head.length
    } else {
        0
    };
    Ok(Request::new(head, filled(alloc, filling.byte, kept as usize)?))
}

/// A TRIM or a WRITE_ZEROES.
pub fn clear(alloc: Global, cookie: u64, clearing: Clearing, range: Range) -> Request {
    match clearing {
        Clearing::Trim => ranged(alloc, cookie, TRIM, 0, range),
        Clearing::Holes => ranged(alloc, cookie, WRITE_ZEROES, 0, range),
        Clearing::Zeroes => {
            let no_hole = CommandFlags::NO_HOLE.bits();
            ranged(alloc, cookie, WRITE_ZEROES, no_hole, range)
        }
    }
}

/// A READ.
pub fn read(alloc: Global, cookie: u64, range: Range) -> Request {
    ranged(alloc, cookie, READ, 0, range)
}

/// A BLOCK_STATUS.
pub fn status(alloc: Global, cookie: u64, range: Range) -> Request {
    ranged(alloc, cookie, BLOCK_STATUS, 0, range)
}

// A request that carries no data, with these flags besides FUA.
fn ranged(alloc: Global, cookie: u64, kind: u16, flags: u16, range: Range) -> Request
    requires { kind ≢ 1 }
{
    Request::new(head_of(cookie, kind, flags, range), Vec::new(alloc))
}

// The head of a request, with these flags besides FUA.
fn head_of(cookie: u64, kind: u16, flags: u16, range: Range) -> RequestHead
    ensures kind { result.kind ≡ kind }
{
    let fua = if range.fua {
        CommandFlags::FUA.bits()
    } else {
        0
    };
    RequestHead {
        flags: fua | flags,
        kind,
        cookie,
        offset: range.offset,
        length: range.length,
    }
}

fn filled(alloc: Global, byte: u8, count: usize) -> Result<Vec<u8>, AllocError>
    ensures { IfOk result (λ bytes. vec_len bytes ≡ count) }
{
    vec![in alloc; byte; count]
}
