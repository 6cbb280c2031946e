ghost use Rattle.std.specs.Prelude.{◌≡◌, ◌+◌, ◌≤◌, ◌↔◌, ℕ, [], IfErr, IfOk, IsTrue, List, OnOk, Some, length, vec_len};
ghost use mathlib.Core.List.{IsPrefix};
ghost use Rattle.checkpoint.specs.Opening.{IsAtRest, IsOpening, IsPassing, disk_after, faults_after_opening};
ghost use Rattle.checkpoint.specs.Recovery.{IsRecovered};
ghost use Rattle.device_image.specs.Holds.{Holds};
ghost use Rattle.device_image.specs.Keeps.{Keeps};
ghost use Rattle.device_image.specs.Stands.{StandsFor};
ghost use Rattle.disk_model.specs.Disk.{IsAllSynced, LeavesOnly};
ghost use Rattle.export.specs.Clients.{new_client_passes};
ghost use Rattle.export.specs.Left.{KeepsLog, LeavesHistory};
ghost use Rattle.export.specs.Opened.{keeper_part};
ghost use Rattle.export.specs.Trusted.{IsTrusted, image_found};
ghost use Rattle.image_model.specs.Image.{Image};
ghost use Rattle.marks.specs.Known.{new_pass};
ghost use Rattle.shared_store.specs.Logs.{IsLogOf};
ghost use Rattle.shared_store.specs.Orders.{SpanRead};

use crate::buffer_pool::BufferPool;
use crate::client_pass::ClientPass;
use crate::commit_queue::CommitQueue;
use crate::log_mode::LogMode;
use crate::name::ExportName;
use crate::retired::LastPass;
use crate::second_handle::ReadUnlocked;
use crate::signals::Signals;
use crate::storage_engine::StorageEngine;
use checkpoint::{Keeper, KeeperFault};
use device_image::keeper_laws;
use disk_model::Disk;
use image_model::Geometry;
use marks::{BlankBoard, Board, KeeperSeat, NoLog, Opened, Pass, Roster, Trust};
use request_core::{Mode, fresh_order};
use shared_store::{SharedKeeper, SharedOrder};
use std::alloc::{AllocError, Global};
use std::sync::{Mutex, Wait};

/// A device that was opened, and a board for it that has no name yet.
#[derive(Drop)]
pub struct OpenDevice<D: Disk, H: ReadUnlocked, T: Trust = NoLog> {
    pub blank: BlankBoard<T>,
    pub keeper: Keeper<D>,
    /// By which it is read with no lock held, where there is one.
    pub second_handle: Option<H>,
    /// How many calls of the device had failed.
    pub failures: u64,
    pub ghost opening: { blank.opening ≡ keeper.count },
    pub ghost recovered: { IsRecovered keeper },
    pub ghost counted: { failures ≡ D.faults keeper.disk },
}

impl<D: Disk, H: ReadUnlocked, T: Trust> OpenDevice<D, H, T> {
    /// Opens a device, which recovers it. It refuses as `Keeper::open` does, or for want of memory behind it, and hands the device
    /// back. A second handle has to be one of the same device.
    pub fn open(
        alloc: Global,
        disk: D,
        second_handle: Option<H>,
    ) -> Result<OpenDevice<D, H, T>, (KeeperFault, D)>
        ensures extent { D.extent (disk_after (keeper_part result (λ opened. opened.keeper))) ≡ D.extent disk }
        ensures faults { let given = keeper_part result (λ opened. opened.keeper) in D.faults (disk_after given) ≡ faults_after_opening given (D.faults disk) }
        ensures honest { D.honest (disk_after (keeper_part result (λ opened. opened.keeper))) ↔ D.honest disk }
        ensures recovered { IfOk result (λ opened. IsRecovered opened.keeper) }
        ensures second_handle { IfOk result (λ opened. opened.second_handle ≡ second_handle) }
        ensures held { IfOk result (λ opened. D.honest opened.keeper.disk → Holds opened.keeper (D.state opened.keeper.disk) (image_found D.state opened.keeper) [] []) }

        // On an honest device there is a content, one that a crash at the start may leave, that is found: at `Ok` it stands
        // for an image, which the keeper keeps with an empty journal, and a refusal says what is bad of it. A crash at any
        // moment leaves what it could leave at the start, or what stands for the same as the content found.
        ensures found { D.honest disk → (content : List ℕ) × IsOpening (D.state disk) D.state (keeper_part result (λ opened. opened.keeper)) content }

        // Where nothing is unsynced at the start and the content stands for an image, the keeper keeps that one, only want
        // of memory, a device fault and the last generation refuse it, and a crash at any moment leaves what stands for it.
        ensures same { D.honest disk → IsAllSynced (D.state disk) → (image : Image) (number : ℕ) → StandsFor (D.state disk).seen image number
            → IfOk result (λ opened. Keeps opened.keeper (D.state opened.keeper.disk) image number × (opened.keeper.base ≡ number)) }
        ensures passing { D.honest disk → IsAllSynced (D.state disk) → (image : Image) (number : ℕ) → StandsFor (D.state disk).seen image number
            → IfErr result (λ refused. IsPassing refused.0) }
        ensures any_moment { D.honest disk → IsAllSynced (D.state disk) → (image : Image) (number : ℕ) → StandsFor (D.state disk).seen image number
            → LeavesOnly (D.state disk) (D.state (disk_after (keeper_part result (λ opened. opened.keeper)))) (λ content. StandsFor content image number) }

        // Where one area is in use and its list is empty, nothing is written.
        ensures at_rest { D.honest disk → IsAllSynced (D.state disk) → IsAtRest (D.state disk).seen
            → LeavesOnly (D.state disk) (D.state (disk_after (keeper_part result (λ opened. opened.keeper)))) (λ content. content ≡ (D.state disk).seen) }
    {
        keeper_laws::<D>();
        let failures = disk.failures();
        let keeper = match Keeper::open(alloc, disk) {
            Ok(keeper) => keeper,
            Err(refused) => return Err(refused),
        };
        match BlankBoard::new(alloc, keeper.count()) {
            Ok(blank) => Ok(OpenDevice {
                blank,
                keeper,
                second_handle,
                failures,
            }),
            Err(_) => Err((KeeperFault::NoMemory, keeper.into_disk())),
        }
    }
}

/// One image that threads serve together. Each has a pass of its own.
///
/// Two locks: that of the order and, taken before it, that of the keeper.
pub struct Export<B: ExportName, D: Disk, H: ReadUnlocked, T: Trust = NoLog> {
    pub(crate) alloc: Global,
    pub(crate) board: Board<B, T>,
    pub geometry: Geometry,
    /// When a write command is answered.
    pub mode: Mode,
    // The same, tied to the log.
    pub(crate) log: LogMode<B, T>,
    pub(crate) engine: Mutex<StorageEngine<B, D>>,
    pub(crate) queue: Mutex<CommitQueue<B>>,
    // By which the device is read with neither lock held.
    pub(crate) second_handle: Option<H>,
    // Into which it is read.
    pub(crate) buffers: Mutex<BufferPool>,
    pub(crate) signals: Signals,
    ghost sized: { geometry ≡ B.geometry },
    ghost moded: { log ≡ mode },
    ghost vouched: { (handle : H) → second_handle ≡ Some handle → (read : SpanRead) → H.vouches handle read → ∥ B.vouches read ∥₁ },
}

// Written out, it is proved once, and not again in each function that lets an export go.
impl<B: ExportName, D: Disk + Drop, H: ReadUnlocked, T: Trust> Drop for Export<B, D, H, T> {
    fn drop(self) {
        let Export {
            alloc: _,
            board: _,
            geometry: _,
            mode: _,
            log: _,
            engine: _,
            queue: _,
            second_handle: _,
            buffers: _,
            signals: _,
        } = self;
    }
}

impl<B: ExportName, D: Disk, H: ReadUnlocked, T: Trust> Export<B, D, H, T> {
    /// An export over a device that was opened, under its name, which is picked where this is called, with `frames` frames for
    /// blocks, a client's pass for each of `workers` workers, and one for its end. It accepts no write that could leave more than
    /// `most_pending` bytes of commands pending, its own included: that waits until some are stored. If the board keeps a log it is one of this mode, image and
    /// device. A refusal for memory hands the device back.
    pub fn open(
        alloc: Global,
        device: OpenDevice<D, H, T>,
        frames: u32,
        mode: Mode,
        workers: usize,
        most_pending: u64,
    ) -> Result<(Export<B, D, H, T>, Vec<ClientPass<B>>, LastPass<B>), D>
        requires board { device.blank.board ≡ B.board }
        requires named { device.blank.opening ≡ B.opening }
        requires geometry { device.keeper.geometry ≡ B.geometry }
        requires image { device.keeper.geometry.blocks ≡ B.image.blocks }
        requires trusted { B.trusted → IsTrusted D.state D.honest device.keeper B.image }
        requires start { B.trusted → LeavesOnly B.start (D.state device.keeper.disk) (λ content. StandsFor content B.image B.opening) }
        requires vouches { (handle : H) → device.second_handle ≡ Some handle → (read : SpanRead) → H.vouches handle read → B.vouches read }
        requires frames { frames ≤ 65536 }
        requires bound { most_pending ≡ B.most_pending }
        requires log { T.logs → IsLogOf B.opening B.image B.vouches B.trusted mode T.trusted T.mode T.image }
        ensures mode { IfOk result (λ made. made.0.mode ≡ mode) }
        ensures passes { IfOk result (λ made. vec_len made.1 ≡ workers) }
        ensures known { IfOk result (λ made. made.1.items ≡ new_client_passes device.keeper.count workers) }
        ensures last { IfOk result (λ made. made.2 ≡ record { pass = new_pass device.keeper.count; roster = record { made = workers; calls = [] } }) }
        ensures back { IfErr result (λ disk. disk ≡ device.keeper.disk) }
    {
        let OpenDevice {
            blank,
            keeper,
            second_handle,
            failures: _,
        } = device;
        match open_parts::<B, D, T>(alloc, blank, &keeper, frames, workers) {
            Ok((board, seat, order, passes, last)) => {
                let (noted_base, geometry) = (keeper.base(), keeper.geometry());
                let engine = StorageEngine::new(SharedKeeper::new(keeper, seat));
                let journal = engine.journal_use();
                let log = LogMode::new(mode);
                let made = Export {
                    alloc,
                    board,
                    geometry,
                    mode,
                    log,
                    engine: Mutex::new(engine),
                    queue: Mutex::new(CommitQueue::new(
                        order,
                        frames,
                        workers,
                        noted_base,
                        journal,
                        most_pending,
                    )),
                    second_handle,
                    buffers: Mutex::new(BufferPool::new(alloc)),
                    signals: Signals::new(),
                };
                Ok((made, passes, last))
            }
            Err(_) => Err(keeper.into_disk()),
        }
    }

    /// Whether a call of the device has failed: commands are refused from then on.
    pub fn is_stopped<R: Wait>(&self, rt: &R) -> bool {
        self.queue.lock(rt).is_stopped()
    }

    /// The device, as it is, and whether all is stored of the history that the last pass then knows; that comes back. What is pending is
    /// lost.
    ///
    /// It meets the order for that: its history begins with what the pass knew, and with what those passes knew that it has joined.
    /// Whatever a crash may leave of the device stands for the image as the opening found it after a beginning of that history, with
    /// all that the pass knows to be durable; and whatever one may have left at any moment since, for it after a beginning.
    ///
    /// If the board kept a log, there is one that agrees with that history, and whatever a crash may leave of the device has all that it covers.
    /// Of each client whose pass was joined it has exactly what that client sent and was answered, and of a client that was never made it has
    /// nothing. Of a client whose pass wasn't joined it says nothing.
    pub fn close(self, last: LastPass<B>) -> (D, bool, Pass<B>)
        ensures knew { IsPrefix last.pass.history result.2.history }
        ensures durable { last.pass.durable ≤ result.2.durable }
        ensures own { result.2.own ≡ last.pass.own }
        ensures left { B.trusted → LeavesHistory B.start (D.state result.0) B.opening B.image result.2.history result.2.durable }
        ensures log { T.logs → KeepsLog T.trusted T.mode B.trusted B.start (D.state result.0) B.opening B.image result.2.history last.roster }
        ensures honest { B.trusted → D.honest result.0 }
        ensures stored { IsTrue result.1 ↔ (B.opening + length result.2.history ≤ result.2.durable) }
    {
        let Export {
            alloc: _,
            board,
            geometry: _,
            mode: _,
            log,
            engine,
            queue,
            second_handle: _,
            buffers: _,
            signals: _,
        } = self;
        let LastPass { mut pass, roster } = last;
        let _mode = log.mode();
        let mut engine = engine.into_inner();
        let mut queue = queue.into_inner();
        let durable = board.look_durable(&mut pass);
        let mark = queue.meet_all(&board, &mut engine.shared, &mut pass);
        let keeper = queue.close(board, engine, roster);
        (keeper.into_disk(), mark <= durable, pass)
    }
}

// The board under its name with the keeper's seat and the clients' passes, an order over what the opening left, and a pass for the end.
fn open_parts<B: ExportName, D: Disk, T: Trust>(
    alloc: Global,
    blank: BlankBoard<T>,
    keeper: &Keeper<D>,
    frames: u32,
    workers: usize,
) -> Result<
    (
        Board<B, T>,
        KeeperSeat<B>,
        SharedOrder<B>,
        Vec<ClientPass<B>>,
        LastPass<B>,
    ),
    AllocError,
>
    requires board { blank.board ≡ B.board }
    requires named { blank.opening ≡ B.opening }
    requires opening { blank.opening ≡ keeper.now.count }
    requires image { keeper.now.geometry.blocks ≡ B.image.blocks }
    requires held { B.trusted → Holds keeper.now (D.state keeper.now.disk) B.image [] [] }
    requires frames { frames ≤ 65536 }
    ensures seat { IfOk result (λ parts. parts.1 ≡ record { history = []; accepted = keeper.now.count; durable = keeper.now.count; base = keeper.now.count }) }
    ensures blocks { IfOk result (λ parts. length parts.2.cache.states ≡ keeper.now.geometry.blocks) }
    ensures noted { IfOk result (λ parts. parts.2.base ≡ keeper.now.count) }
    ensures passes { IfOk result (λ parts. vec_len parts.3 ≡ workers) }
    ensures known { IfOk result (λ parts. parts.3.items ≡ new_client_passes keeper.now.count workers) }
    ensures last { IfOk result (λ parts. parts.4 ≡ record { pass = new_pass keeper.now.count; roster = record { made = workers; calls = [] } }) }
{
    let Opened {
        board,
        order: order_seat,
        keeper: seat,
        mut roster,
        passes: mut last,
    } = blank.open::<B>(alloc, 1)?;
    let Some(last) = last.pop() else {
        return Err(AllocError);
    };
    let passes = enroll_all(alloc, &board, &mut roster, workers)?;
    let order = fresh_order(alloc, keeper, frames, order_seat)?;
    Ok((
        board,
        seat,
        SharedOrder::new(order),
        passes,
        LastPass { pass: last, roster },
    ))
}

// The passes of `count` clients more; before them there were none.
fn enroll_all<B: ExportName, T: Trust>(
    alloc: Global,
    board: &Board<B, T>,
    roster: &mut Roster<B>,
    count: usize,
) -> Result<Vec<ClientPass<B>>, AllocError>
    requires { roster.old ≡ record { made = 0; calls = [] } }
    ensures roster { OnOk result (roster.new ≡ record { made = count; calls = [] }) }
    ensures passes { IfOk result (λ passes. passes.items ≡ new_client_passes B.opening count) }
{
    let mut passes = Vec::with_capacity(alloc, count)?;
    for _ in 0..count {
        passes.push(ClientPass {
            pass: board.enroll(roster),
        })?;
    }
    Ok(passes)
}
