ghost use Rattle.std.specs.Prelude.{◌≡◌, ◌+◌, [], false, nat_lt, ◌*◌, IfErr, IfOk, IsOk, IsTrue, List, OnOk, Some, length, vec_len};
ghost use Rattle.device_image.specs.Stands.{StandsFor};
ghost use Rattle.disk_model.specs.Disk.{LeavesOnly};
ghost use Rattle.export.specs.Clients.{new_client_passes};
ghost use Rattle.export.specs.Left.{KeepsLog, LeavesHistory};
ghost use Rattle.export.specs.Trusted.{IsTrusted, IsTrustedWith, image_found};
ghost use Rattle.export_model.specs.Log.{flush_waits};
ghost use Rattle.export_model.specs.OneLog.{RosterState};
ghost use Rattle.image_model.specs.Change.{Change};
ghost use Rattle.marks.specs.Known.{new_pass};
ghost use Rattle.negotiation.specs.Answered.{offered};
ghost use Rattle.server.specs.Sessions.{AreServed, HasAll};
ghost use Rattle.shared_store.specs.Logs.{IsLogOf};
ghost use Rattle.shared_store.specs.Orders.{SpanRead};

use crate::client_registry::ClientRegistry;
use crate::listener::Listener;
use crate::name::ServerName;
use crate::watch::Watch;
use crate::worker::{Server, Task, WorkerPool};
use disk_model::Disk;
use export::{
    ClientPass, Export, LastPass, OpenDevice, ReadUnlocked, SyncPoints, opened_device_law,
};
use front_end::{Refusal, ServeOptions};
use marks::{BlankBoard, Trust};
use negotiation::OfferedName;
use std::alloc::Global;
use std::io::{ErrorKind, Read};
use std::marker::Brand;
use std::rt::Clock;
use std::sync::{Arc, Wait};
use std::thread::{self, Scope, Threads};

/// Serves the clients that arrive at sockets and ask for this name, from a device that was opened, and gives the device back once the server has come
/// to its end: as many sessions have ended as the options say, `input` has ended where they say so, or a call of the device has
/// failed. `watch` is told once all threads are there, and what happens, and may hold the threads. Refusals 0 (no memory to begin), 1 (device fault,
/// not all is stored, or the pass of a client is missing at the end, which should not happen) and 21 (the socket). When it ends, and with which of them, isn't said.
///
/// Where the device is trusted, whatever a crash at some moment of it may have left stands for the image that was found after a
/// beginning of one history of write commands; and at Ok whatever one may leave then stands for the image after all of that. At Ok
/// the device has counted no fault since it was opened; a failed read by its second handle is none.
///
/// There are a log of requests and answers, over all threads, and one history of write commands with which it agrees: each answer has what all
/// others in the log were answered before its request was sent; of what a READ shows this is said if the device and its second handle are
/// trusted. Whatever a crash may leave in the end of a trusted device has all that the log covers, and at Ok all of the history. What the log has
/// of the clients in its list comes from sessions over streams, as `serve_session` has them: the first of the requests that were handed over, with
/// the answers that they got. At Ok the list has all clients, so the log has nothing else. A worker counts as one client, whatever sockets it
/// serves. With several requests in progress each of its passes is a client, of which the list says only that each request has one
/// answer, of its kind, which the rules allow. Which bytes a socket gave and took is said by no clause.
pub fn serve<D, H, R, I, G>(
    rt: &R,
    alloc: Global,
    device: OpenDevice<D, H>,
    listeners: Vec<Listener>,
    input: I,
    options: ServeOptions,
    name: OfferedName<'_>,
    watch: G,
) -> (Result<(), Refusal>, D)
where
    D: Disk + Send + Drop,
    H: ReadUnlocked + Send + Sync,
    R: Threads + Wait + Clock + Copy + Send + Sync + Drop + 'static,
    I: Read + Send + Drop + 'static,
    G: SyncPoints + Watch + Copy + Send + Sync,
    ensures left { IsTrusted D.state D.honest device.keeper (image_found D.state device.keeper) → (history : List Change)
        × LeavesHistory (D.state device.keeper.disk) (D.state result.1) device.keeper.count (image_found D.state device.keeper) history device.keeper.count }
    ensures stored { OnOk result.0 (IsTrusted D.state D.honest device.keeper (image_found D.state device.keeper) → (history : List Change)
        × LeavesHistory (D.state device.keeper.disk) (D.state result.1) device.keeper.count (image_found D.state device.keeper) history (device.keeper.count + length history)) }
    ensures log { (history : List Change) × (roster : RosterState)
        × KeepsLog (IsTrustedWith D.state D.honest H.vouches device.keeper device.second_handle (image_found D.state device.keeper)) options.mode (IsTrusted D.state D.honest device.keeper (image_found D.state device.keeper)) (D.state device.keeper.disk) (D.state result.1) device.keeper.count (image_found D.state device.keeper) history roster
        × ∥ AreServed (offered device.keeper.geometry name.entry.bytes.now (flush_waits options.mode)) device.keeper.geometry (nat_lt 1 options.in_flight) roster.calls ∥₁
        × OnOk result.0 (HasAll roster × (IsTrusted D.state D.honest device.keeper (image_found D.state device.keeper)
        → LeavesHistory (D.state device.keeper.disk) (D.state result.1) device.keeper.count (image_found D.state device.keeper) history (device.keeper.count + length history))) }
    ensures honest { IsTrusted D.state D.honest device.keeper (image_found D.state device.keeper) → D.honest result.1 }
    ensures faults { OnOk result.0 (D.faults result.1 ≡ D.faults device.keeper.disk) }
{
    opened_device_law::<D>();
    match open_registry(rt, alloc, listeners, input, &options) {
        Ok(registry) => serve_logged::<Brand, D, H, R, G>(
            rt, alloc, device, &registry, options, name, watch,
        ),
        Err(refusal) => (Err(refusal), device.keeper.into_disk()),
    }
}

// The registry of the clients, which a thread closes at the end of the input where the options say so. Nobody waits for that
// thread, since it may wait for an input that never ends.
fn open_registry<R, I>(
    rt: &R,
    alloc: Global,
    listeners: Vec<Listener>,
    input: I,
    options: &ServeOptions,
) -> Result<Arc<ClientRegistry, Global>, Refusal>
where
    R: Threads + Wait + Clock + Copy + Send + Drop + 'static,
    I: Read + Send + Drop + 'static,
{
    let registry = new_registry(alloc, listeners, options.workers)?;
    if options.until_eof {
        let own = *rt;
        let Ok(closed) = Arc::try_clone(&registry) else {
            return Err(Refusal::NoMemory);
        };
        if thread::spawn(rt, move || close_behind(&own, &closed, input)).is_err() {
            return Err(Refusal::NoMemory);
        }
    }
    Ok(registry)
}

fn new_registry(
    alloc: Global,
    listeners: Vec<Listener>,
    workers: u32,
) -> Result<Arc<ClientRegistry, Global>, Refusal> {
    match ClientRegistry::new(alloc, listeners, workers) {
        Ok(registry) => Arc::new(alloc, registry).ok().ok_or(Refusal::NoMemory),
        Err(error) if error.kind() == ErrorKind::OutOfMemory => Err(Refusal::NoMemory),
        Err(_) => Err(Refusal::StreamFault),
    }
}

fn close_behind<R: Wait + Clock, I: Read + Drop>(rt: &R, registry: &ClientRegistry, input: I) {
    read_to_end_of(rt, input);
    registry.close(rt);
}

/// Waits until an input has ended or fails; its bytes are dropped.
pub fn read_to_end_of<R: Wait, I: Read + Drop>(rt: &R, input: I) {
    let mut input = input;
    let mut passed = [0; 512];
    for _ in rt.forever() {
        match input.read(&mut passed) {
            Ok(0) => break,
            Ok(_) => {}
            Err(error) if error.kind() == ErrorKind::Interrupted => {}
            Err(_) => break,
        }
    }
}

// The same over a board that keeps a log, of which is said what it trusts.
fn serve_logged<T, D, H, R, G>(
    rt: &R,
    alloc: Global,
    device: OpenDevice<D, H>,
    registry: &ClientRegistry,
    options: ServeOptions,
    name: OfferedName<'_>,
    watch: G,
) -> (Result<(), Refusal>, D)
where
    T: Trust + Send + Sync,
    D: Disk + Send + Drop,
    H: ReadUnlocked + Send + Sync,
    R: Threads + Wait + Clock + Sync,
    G: SyncPoints + Watch + Copy + Send + Sync,
    requires mode { T.mode ≡ options.mode }
    requires image { T.image ≡ image_found D.state device.keeper }
    requires trusted { T.trusted → IsTrustedWith D.state D.honest H.vouches device.keeper device.second_handle (image_found D.state device.keeper) }
    ensures left { IsTrusted D.state D.honest device.keeper (image_found D.state device.keeper) → (history : List Change)
        × LeavesHistory (D.state device.keeper.disk) (D.state result.1) device.keeper.count (image_found D.state device.keeper) history device.keeper.count }
    ensures stored { OnOk result.0 (IsTrusted D.state D.honest device.keeper (image_found D.state device.keeper) → (history : List Change)
        × LeavesHistory (D.state device.keeper.disk) (D.state result.1) device.keeper.count (image_found D.state device.keeper) history (device.keeper.count + length history)) }
    ensures log { T.logs → (history : List Change) × (roster : RosterState)
        × KeepsLog T.trusted T.mode (IsTrusted D.state D.honest device.keeper (image_found D.state device.keeper)) (D.state device.keeper.disk) (D.state result.1) device.keeper.count (image_found D.state device.keeper) history roster
        × ∥ AreServed (offered device.keeper.geometry name.entry.bytes.now (flush_waits options.mode)) device.keeper.geometry (nat_lt 1 options.in_flight) roster.calls ∥₁
        × OnOk result.0 (HasAll roster × (IsTrusted D.state D.honest device.keeper (image_found D.state device.keeper)
        → LeavesHistory (D.state device.keeper.disk) (D.state result.1) device.keeper.count (image_found D.state device.keeper) history (device.keeper.count + length history))) }
    ensures honest { IsTrusted D.state D.honest device.keeper (image_found D.state device.keeper) → D.honest result.1 }
    ensures faults { OnOk result.0 (D.faults result.1 ≡ D.faults device.keeper.disk) }
{
    opened_device_law::<D>();
    let OpenDevice {
        blank: _,
        keeper,
        second_handle,
        failures,
    } = device;
    match BlankBoard::<T>::new(alloc, keeper.count()) {
        Ok(blank) => {
            let device = OpenDevice {
                blank,
                keeper,
                second_handle,
                failures,
            };
            serve_over::<Brand, D, H, T, R, G>(rt, alloc, device, registry, options, name, watch)
        }
        Err(_) => (Err(Refusal::NoMemory), keeper.into_disk()),
    }
}

fn serve_over<B, D, H, T, R, G>(
    rt: &R,
    alloc: Global,
    device: OpenDevice<D, H, T>,
    registry: &ClientRegistry,
    options: ServeOptions,
    name: OfferedName<'_>,
    watch: G,
) -> (Result<(), Refusal>, D)
where
    B: ServerName + Send + Sync,
    D: Disk + Send + Drop,
    H: ReadUnlocked + Send + Sync,
    T: Trust + Send + Sync,
    R: Threads + Wait + Clock + Sync,
    G: SyncPoints + Watch + Copy + Send + Sync,
    requires board { device.blank.board ≡ B.board }
    requires named { device.blank.opening ≡ B.opening }
    requires image { device.keeper.geometry.blocks ≡ B.image.blocks }
    requires trusted { B.trusted → IsTrusted D.state D.honest device.keeper B.image }
    requires start { B.trusted → LeavesOnly B.start (D.state device.keeper.disk) (λ content. StandsFor content B.image B.opening) }
    requires vouches { (handle : H) → device.second_handle ≡ Some handle → (read : SpanRead) → H.vouches handle read → B.vouches read }
    requires geometry { device.keeper.geometry ≡ B.geometry }
    requires log { T.logs → IsLogOf B.opening B.image B.vouches B.trusted options.mode T.trusted T.mode T.image }
    requires offers { offered device.keeper.geometry name.bytes.now (flush_waits options.mode) ≡ B.offer }
    requires several { nat_lt 1 options.in_flight ≡ B.several }
    requires bound { options.limits.loss_bytes ≡ B.most_pending }
    ensures left { B.trusted → (history : List Change) × LeavesHistory B.start (D.state result.1) B.opening B.image history B.opening }
    ensures stored { OnOk result.0 (B.trusted → (history : List Change) × LeavesHistory B.start (D.state result.1) B.opening B.image history (B.opening + length history)) }
    ensures log { T.logs → (history : List Change) × (roster : RosterState) × KeepsLog T.trusted T.mode B.trusted B.start (D.state result.1) B.opening B.image history roster
        × ∥ AreServed B.offer B.geometry B.several roster.calls ∥₁
        × OnOk result.0 (HasAll roster × (B.trusted → LeavesHistory B.start (D.state result.1) B.opening B.image history (B.opening + length history))) }
    ensures honest { B.trusted → D.honest result.1 }
    ensures faults { OnOk result.0 (D.faults result.1 ≡ D.faults device.keeper.disk) }
{
    opened_device_law::<D>();
    let failures = device.failures;
    match open_export::<B, D, H, T>(alloc, device, &options) {
        Ok((export, passes, last)) => {
            let sessions = options.limits.sessions;
            let pool = WorkerPool::new(rt, alloc, registry, &export, passes, last, sessions);
            let (served, last) = serve_clients(rt, pool, &export, options, name, watch);
            let (disk, is_stored, _pass) = export.close(last);
            let has_failed = disk.failures() != failures;
            (end_of(served, has_failed, is_stored), disk)
        }
        Err(disk) => (Err(Refusal::NoMemory), disk),
    }
}

// What a server has come to: why it couldn't begin, whether a call of the device has failed, and whether all is stored.
fn end_of(served: Result<(), Refusal>, has_failed: bool, is_stored: bool) -> Result<(), Refusal>
    ensures served { OnOk result (IsOk served) }
    ensures stored { OnOk result (IsTrue is_stored) }
    ensures works { OnOk result (has_failed ≡ false) }
{
    served?;
    if has_failed || !is_stored {
        return Err(Refusal::DeviceFault);
    }
    Ok(())
}

// The export that the options ask for, a pass for each request in progress of each worker and one more, and one for the end.
fn open_export<B, D, H, T>(
    alloc: Global,
    device: OpenDevice<D, H, T>,
    options: &ServeOptions,
) -> Result<(Export<B, D, H, T>, Vec<ClientPass<B>>, LastPass<B>), D>
where
    B: ServerName,
    D: Disk,
    H: ReadUnlocked,
    T: Trust,
    requires board { device.blank.board ≡ B.board }
    requires named { device.blank.opening ≡ B.opening }
    requires image { device.keeper.geometry.blocks ≡ B.image.blocks }
    requires trusted { B.trusted → IsTrusted D.state D.honest device.keeper B.image }
    requires start { B.trusted → LeavesOnly B.start (D.state device.keeper.disk) (λ content. StandsFor content B.image B.opening) }
    requires vouches { (handle : H) → device.second_handle ≡ Some handle → (read : SpanRead) → H.vouches handle read → B.vouches read }
    requires geometry { device.keeper.geometry ≡ B.geometry }
    requires bound { options.now.limits.loss_bytes ≡ B.most_pending }
    requires log { T.logs → IsLogOf B.opening B.image B.vouches B.trusted options.now.mode T.trusted T.mode T.image }
    ensures mode { IfOk result (λ made. made.0.mode ≡ options.now.mode) }
    ensures passes { IfOk result (λ made. vec_len made.1 ≡ options.now.workers * options.now.in_flight + 1) }
    ensures new { IfOk result (λ made. made.1.items ≡ new_client_passes device.keeper.count (options.now.workers * options.now.in_flight + 1)) }
    ensures last { IfOk result (λ made. made.2 ≡ record { pass = new_pass device.keeper.count; roster = record { made = options.now.workers * options.now.in_flight + 1; calls = [] } }) }
    ensures back { IfErr result (λ disk. disk ≡ device.keeper.disk) }
{
    Export::<B, D, H, T>::open(
        alloc,
        device,
        options.frames,
        options.mode,
        options.workers as usize * options.in_flight as usize + 1,
        options.limits.loss_bytes,
    )
}

// Serves clients until all threads have ended; why it couldn't begin, and the last pass.
fn serve_clients<B, D, H, T, R, G>(
    rt: &R,
    pool: WorkerPool<'_, B>,
    export: &Export<B, D, H, T>,
    options: ServeOptions,
    name: OfferedName<'_>,
    watch: G,
) -> (Result<(), Refusal>, LastPass<B>)
where
    B: ServerName + Send + Sync,
    D: Disk + Send,
    H: ReadUnlocked + Send + Sync,
    T: Trust + Send + Sync,
    R: Threads + Wait + Clock + Sync,
    G: SyncPoints + Watch + Copy + Send + Sync,
    requires offers { offered export.now.geometry name.bytes.now (flush_waits export.now.mode) ≡ B.offer }
    requires several { nat_lt 1 options.in_flight ≡ B.several }
    ensures served { ∥ AreServed B.offer B.geometry B.several result.1.roster.calls ∥₁ }
    ensures all { OnOk result.0 (HasAll result.1.roster) }
{
    if let Some(limit) = options.limits.pending() {
        export.store_within(rt, limit);
    }
    let server = Server {
        rt,
        pool: &pool,
        export,
        options,
        name,
        watch,
    };
    let served = run_threads(rt, &server);
    // A fault that another handle met is none of the keeper's device.
    let has_failed = export.is_stopped(rt);
    let (last, has_all) = pool.into_last(export);
    (outcome_of(served, has_failed, has_all), last)
}

// Why a server couldn't begin, whether a call of the device has failed, and whether the log's list has all clients, which it always does:
// each worker hands its pass back.
fn outcome_of(served: Result<(), Refusal>, has_failed: bool, has_all: bool) -> Result<(), Refusal>
    ensures served { OnOk result (IsOk served) }
    ensures works { OnOk result (has_failed ≡ false) }
    ensures all { OnOk result (IsTrue has_all) }
{
    served?;
    if has_failed || !has_all {
        return Err(Refusal::DeviceFault);
    }
    Ok(())
}

// Workers beside a flusher, a checkpointer and a thread for each listener, until all have ended.
fn run_threads<B, D, H, T, R, G>(
    rt: &R,
    server: &Server<'_, B, D, H, T, R, G>,
) -> Result<(), Refusal>
where
    B: ServerName + Send + Sync,
    D: Disk + Send,
    H: ReadUnlocked + Send + Sync,
    T: Trust + Send + Sync,
    R: Threads + Wait + Clock + Sync,
    G: SyncPoints + Watch + Copy + Send + Sync,
{
    thread::scope(
        thread::scope_env(),
        rt,
        move |scope| server.start_threads(scope),
    )
}

impl<'a, B, D, H, T, R, G> Server<'a, B, D, H, T, R, G>
where
    B: ServerName + Send + Sync,
    D: Disk + Send,
    H: ReadUnlocked + Send + Sync,
    T: Trust + Send + Sync,
    R: Threads + Wait + Clock + Sync,
    G: SyncPoints + Watch + Copy + Send + Sync,
{
    // Starts the threads, and tells that clients are served. If not as many workers can be started, fewer clients are served at a time;
    // without any other thread the server ends.
    fn start_threads<'s, E>(&'s self, scope: &Scope<'s, E>) -> Result<(), Refusal> {
        if !self.start_workers(scope) {
            return Err(Refusal::NoMemory);
        }
        let registry = self.pool.registry();
        if !self.start_accepting(scope) {
            registry.close(self.rt);
            return Err(Refusal::NoMemory);
        }
        if self.watch.announce().is_err() {
            registry.close(self.rt);
            return Err(Refusal::StreamFault);
        }
        Ok(())
    }

    // Starts the guards of the device and a thread for each listener; whether all are there.
    fn start_accepting<'s, E>(&'s self, scope: &Scope<'s, E>) -> bool {
        for at in 0..self.watch.guards() {
            if !self.start(scope, Task::Guard(at)) {
                return false;
            }
        }
        for at in 0..self.pool.registry().doors() {
            if !self.start(scope, Task::Accept(at)) {
                return false;
            }
        }
        true
    }

    // Starts a flusher, a checkpointer and workers; whether a worker is among them. There is none without a flusher, for whose end the
    // checkpointer waits.
    fn start_workers<'s, E>(&'s self, scope: &Scope<'s, E>) -> bool {
        if !self.start(scope, Task::Flush) {
            return false;
        }
        let mut started = 0;
        if self.start(scope, Task::Checkpoint) {
            for at in 0..self.options.workers {
                if !self.start(scope, Task::Work) {
                    break;
                }
                started = at + 1;
            }
        }
        // The flusher ends once all passes have left.
        for _ in started..self.options.workers {
            let count = self.options.in_flight;
            if let Some((slot, passes)) = self.pool.take_passes(self.rt, self.export, count) {
                self.retire(slot, passes);
            }
        }
        // Where not as many can be made, fewer ask for figures at a time.
        for _ in 0..self.watch.answerers() {
            if !self.start(scope, Task::Answer) {
                break;
            }
        }
        started > 0
    }

    // Starts a thread for a task; whether there is one.
    fn start<'s, E>(&'s self, scope: &Scope<'s, E>, task: Task) -> bool {
        scope.spawn(move || self.run(task)).is_ok()
    }
}
