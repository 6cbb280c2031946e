ghost use Rattle.std.specs.Prelude.{◌≡◌, ◌≢◌, ◌⊎◌, ◌≤◌, ◌<◌, ◌-◌, ◌*◌, ◌++◌, ◌∷◌, [], max, IfErr, IfNone, IfOk, IfSome, OnOk, length, slice_range, vec_len, vec_capacity};
ghost use mathlib.Core.List.{IsPrefix};
ghost use Rattle.export.specs.Noted.{base_of};
ghost use Rattle.export.specs.Submits.{IsCovered, IsJudged, IsSubmitted};
ghost use Rattle.export.specs.inner.Serving.{IsServedAs, MayServe};
ghost use Rattle.export.specs.inner.Submits.{IsUnserved, IsWaitedFor};
ghost use Rattle.export_model.specs.declared.event.Event.TheVariants as Event;
ghost use Rattle.image_model.specs.Image.{apply_all};
ghost use Rattle.marks.specs.Known.{known};
ghost use Rattle.nbd_wire.specs.Reply.{IsAnswerTo};
ghost use Rattle.nbd_wire.specs.declared.message.Answer.TheVariants as Answer;
ghost use Rattle.regions.specs.Layout.{block_at};
ghost use Rattle.request_core.specs.Reading.{IsPlanned};
ghost use Rattle.request_core.specs.Serving.{ready_for};
ghost use Rattle.request_core.specs.declared.serving.Served.TheVariants as Served;
ghost use Rattle.shared_store.specs.Answers.{TellsImage};
ghost use Rattle.export_model.specs.Verdict.{verdict};
ghost use Rattle.shared_store.specs.Orders.{Trusting};

use crate::buffer_pool::LEAST_KEPT;
use crate::client_pass::ClientPass;
use crate::commit_queue::Planned;
use crate::edges::MissingEdges;
use crate::export::Export;
use crate::locking::lock_patiently;
use crate::name::ExportName;
use crate::retired::{LastPass, RetiredPass};
use crate::second_handle::ReadUnlocked;
use crate::sync_points::SyncPoints;
use crate::waits::WaitReason;
use disk_model::{DeviceFault, Disk};
use image_model::BLOCK_BYTES;
use marks::{Pass, Told, Trust};
use nbd_wire::{Answer, Errno, FLUSH, Reply, Request, SessionFlags};
use regions::Regions;
use request_core::{Action, Blocks, NeedsKeeper, Served, Terms, judge};
use std::rt::Clock;
use std::sync::Wait;

/// How often a READ is tried without locks before it waits for the keeper.
const MOST_TRIES: u32 = 2;

impl<B: ExportName, D: Disk, H: ReadUnlocked, T: Trust> Export<B, D, H, T> {
    /// The answer to a FLUSH sent now: Done if all that was accepted by now is durable, otherwise None. It never waits and takes no lock.
    ///
    /// Only tests call it, because `submit` waits. Its contract shows what a FLUSH takes: two reads of the board.
    pub fn flush_now(&self, pass: &mut ClientPass<B>) -> Option<Answer>
        ensures done { IfSome result (λ answer. (answer ≡ Answer.Done) × (known pass.old ≤ pass.new.accepted) × (pass.new.accepted ≤ pass.new.durable)) }
        ensures none { IfNone result (pass.new.durable < pass.new.accepted) }
        ensures knew { IsPrefix pass.old.history pass.new.history }
        ensures covered { IfSome result (λ answer. IsCovered B.opening pass.old pass.new) }
        ensures lasts { pass.old.durable ≤ pass.new.durable }
        ensures own { pass.new.own ≡ pass.old.own }
        ensures client { pass.new.client ≡ pass.old.client }
    {
        let accepted = self.board.look_accepted(&mut pass.pass);
        let durable = self.board.look_durable(&mut pass.pass);
        if durable < accepted {
            return None;
        }
        Some(Answer::Done)
    }

    /// What a pass knows after a look at what was accepted, for another pass to `learn`.
    pub fn tell(&self, pass: &mut ClientPass<B>) -> Told<B>
        ensures told { result ≡ record { history = pass.new.history; accepted = pass.new.accepted; durable = pass.new.durable } }
        ensures known { known pass.old ≤ pass.new.accepted }
        ensures knew { IsPrefix pass.old.history pass.new.history }
        ensures pass { pass.new ≡ record pass.old { history = pass.new.history; accepted = pass.new.accepted } }
    {
        self.board.tell(&mut pass.pass)
    }

    /// A pass learns what another one told: both histories become prefixes of its own, and it keeps the greater numbers.
    pub fn learn(&self, pass: &mut ClientPass<B>, told: Told<B>)
        ensures knew { IsPrefix pass.old.history pass.new.history }
        ensures told { IsPrefix told.history pass.new.history }
        ensures pass { pass.new ≡ record pass.old { history = pass.new.history; accepted = max pass.old.accepted told.accepted; durable = max pass.old.durable told.durable } }
    {
        self.board.learn(&mut pass.pass, told);
    }
}

impl<B: ExportName, D: Disk, H: ReadUnlocked, T: Trust> Export<B, D, H, T> {
    /// Serves a request of a pass, except a DISC, and gives its reply. It may wait: for room, and until what the reply promises is
    /// durable.
    ///
    /// A request that the validation rules refuse gets their error. Any other one gets EIO after a device fault, ENOMEM if memory is
    /// refused, ENOSPC if no number is left, or what was asked for. The contract doesn't say when each of these comes.
    ///
    /// If a read by the second handle fails, its request gets EIO, and nothing else changes. Requests that wait to be stored get EIO too
    /// once memory for storing has been refused for a second.
    ///
    /// If it waits until something is stored, it may store a group itself, and then reaches `points`.
    pub fn submit<R: Wait + Clock, G: SyncPoints>(
        &self,
        rt: &R,
        points: &mut G,
        pass: &mut ClientPass<B>,
        request: Request,
        flags: &SessionFlags,
    ) -> Reply
        requires { request.head.kind ≢ 2 }
        ensures cookie { result.cookie ≡ request.head.cookie }
        ensures submitted { IsSubmitted B.opening B.image (Trusting B.opening B.image B.vouches B.trusted) request self.now.mode pass.old pass.new result.answer }
        ensures kind { IsAnswerTo flags.now request.head.kind result.answer }
        ensures judged { IsJudged (verdict request.head self.now.geometry flags.now) request result.answer }

        // A READ and a BLOCK_STATUS show the opening's image after the history that the pass then knows.
        ensures tells { Trusting B.opening B.image B.vouches B.trusted (TellsImage (apply_all pass.new.history B.image) request.head result.answer) }

        // What its client sent and was answered grows by this request and this answer alone. Both are in the log, if the board
        // keeps one.
        ensures by { pass.new.client.by ≡ pass.old.client.by }
        ensures calls { pass.new.client.mine ≡ pass.old.client.mine ++ Event.Sent pass.old.client.by request ∷ Event.Answered pass.old.client.by result.answer ∷ [] }
    {
        let cookie = request.head().cookie;
        let terms = Terms {
            geometry: self.geometry,
            flags: *flags,
            mode: self.log.mode(),
        };
        let request = self.board.begin(&mut pass.pass, request);
        let answer = self.serve_to_end(rt, points, &mut pass.pass, request, terms);
        let answer = self.board.answer(&mut pass.pass, answer);
        Reply { cookie, answer }
    }

    // Serves a request that its client has sent until it has an answer.
    fn serve_to_end<R: Wait + Clock, G: SyncPoints>(
        &self,
        rt: &R,
        points: &mut G,
        pass: &mut Pass<B>,
        request: Request,
        terms: Terms,
    ) -> Answer
        requires { MayServe T.logs T.trusted T.mode T.image B.opening B.image B.vouches B.trusted B.geometry request terms pass.old.client }
        ensures { IsServedAs T.logs T.trusted T.image B.opening B.image B.vouches B.trusted request terms pass.old pass.new (ready_for request.head.cookie result) }
    {
        match self.serve_at_once(rt, points, pass, request, terms) {
            Ok(answer) => answer,
            Err(number) => self.wait_for(rt, points, pass, number),
        }
    }

    /// Serves a request that its client has sent until it has an answer, or else a number that has to be durable first. It tries again
    /// each time that there was no room.
    pub(crate) fn serve_at_once<R: Wait + Clock, G: SyncPoints>(
        &self,
        rt: &R,
        points: &mut G,
        pass: &mut Pass<B>,
        request: Request,
        terms: Terms,
    ) -> Result<Answer, u64>
        requires { MayServe T.logs T.trusted T.mode T.image B.opening B.image B.vouches B.trusted B.geometry request terms pass.old.client }
        ensures answered { IfOk result (λ answer. IsServedAs T.logs T.trusted T.image B.opening B.image B.vouches B.trusted request terms pass.old pass.new (ready_for request.head.cookie answer)) }
        ensures waits { IfErr result (λ number. IsServedAs T.logs T.trusted T.image B.opening B.image B.vouches B.trusted request terms pass.old pass.new (Served.Wait number)) }
    {
        let mut request = request;
        for _ in rt.forever() {
            match self.serve_once(rt, points, pass, request, terms) {
                Served::Ready(reply) => return Ok(reply.answer),
                Served::Wait(number) => return Err(number),
                Served::NoRoom(back) => request = back,
            }
        }
        unreachable!()
    }

    /// Takes back a reply that isn't needed any more. It keeps the buffer of a long READ for another one, and gives back that of a short
    /// one: a READ that brings it gets its bytes in it.
    pub fn reuse<R: Wait>(&self, rt: &R, reply: Reply) -> Option<Vec<u8>> {
        match reply.answer {
            Answer::Bytes(read) => self.keep_buffer(rt, read.into_bytes()),
            _answer => None,
        }
    }

    /// An empty buffer for this many bytes of a WRITE's data, or for a long READ to bring, if one is kept.
    pub fn data_buffer<R: Wait>(&self, rt: &R, room: usize) -> Option<Vec<u8>>
        ensures { IfSome result (λ buffer. (buffer.items ≡ []) × (room ≤ vec_capacity buffer)) }
    {
        self.buffers.lock(rt).take_data(room)
    }

    // Keeps a long buffer for another READ, and gives back a short one.
    fn keep_buffer<R: Wait>(&self, rt: &R, buffer: Vec<u8>) -> Option<Vec<u8>> {
        if buffer.len() < LEAST_KEPT {
            return Some(buffer);
        }
        self.buffers.lock(rt).put(buffer);
        None
    }

    // Tries to serve a request, under the order's lock alone if it can. Without room it gives the request back, mostly after a wait.
    fn serve_once<R: Wait + Clock, G: SyncPoints>(
        &self,
        rt: &R,
        points: &mut G,
        pass: &mut Pass<B>,
        request: Request,
        terms: Terms,
    ) -> Served
        requires { MayServe T.logs T.trusted T.mode T.image B.opening B.image B.vouches B.trusted B.geometry request terms pass.old.client }
        ensures { IsServedAs T.logs T.trusted T.image B.opening B.image B.vouches B.trusted request terms pass.old pass.new result }
    {
        let mut queue = lock_patiently(rt, &self.queue);
        let served = match queue.serve(self.alloc, request, &self.board, pass, terms) {
            Ok(served) => served,
            Err(NeedsKeeper(back)) => {
                let planned = queue.plan(&back, &terms);
                let edges = queue.missing_edges(&back.head());
                drop(queue);
                return self.serve_missing(rt, pass, back, planned, edges, terms);
            }
        };
        match &served {
            Served::Ready(_) => {
                let (flusher, checkpointer) = queue.whom_to_wake();
                self.signals.note_slows_writers(queue.slows_writers());
                drop(queue);
                self.signals.notify(flusher, checkpointer);
            }
            Served::Wait(_) => {}
            Served::NoRoom(back) if queue.cannot_make_room() => {
                return refuse(back, &terms, Errno::NoMemory);
            }
            Served::NoRoom(back) if queue.exceeds_loss(back) => {
                queue.want_pending();
                self.signals.notify(true, false);
                let reason = if queue.is_full() {
                    WaitReason::Journal
                } else {
                    WaitReason::LossBytes
                };
                self.wait_for_room(rt, points, queue, reason);
            }
            Served::NoRoom(_) => {
                queue.note_no_room();
                self.signals.notify(true, true);
                self.wait_for_room(rt, points, queue, WaitReason::Frames);
            }
        }
        served
    }

    // Serves a request that needs the device: a planned READ without locks if that succeeds, otherwise with the keeper. A write gets EIO if
    // the second handle can't read the old bytes that it needs.
    fn serve_missing<R: Wait>(
        &self,
        rt: &R,
        pass: &mut Pass<B>,
        request: Request,
        planned: Option<Planned>,
        edges: MissingEdges,
        terms: Terms,
    ) -> Served
        requires may { MayServe T.logs T.trusted T.mode T.image B.opening B.image B.vouches B.trusted B.geometry request terms pass.old.client }
        requires planned { IfSome planned (λ planned. IsPlanned request.head terms.geometry terms.flags planned.span) }
        ensures { IsServedAs T.logs T.trusted T.image B.opening B.image B.vouches B.trusted request terms pass.old pass.new result }
    {
        match self.serve_unlocked(rt, pass, &request, planned, &terms) {
            Some(served) => {
                self.keep_room(rt, request);
                served
            }
            None if planned.is_none() && !self.can_read_edges(edges) => {
                refuse(&request, &terms, Errno::Io)
            }
            None => self.serve_with_keeper(rt, pass, request, terms),
        }
    }

    // Keeps the long memory that a READ brought for its bytes, which lie in other memory.
    fn keep_room<R: Wait>(&self, rt: &R, request: Request) {
        let (_head, room) = request.into_parts();
        if room.capacity() >= LEAST_KEPT {
            self.buffers.lock(rt).put_data(room);
        }
    }

    // Whether the second handle, if there is one, can read the blocks of which a write needs old bytes. It is asked first, because
    // a fault that the keeper meets stops the export.
    fn can_read_edges(&self, edges: MissingEdges) -> bool {
        let Some(handle) = &self.second_handle else {
            return true;
        };
        let mut bytes = [0; BLOCK_BYTES as usize];
        for block in [edges.first, edges.last] {
            let Some(block) = block else {
                continue;
            };
            if block >= self.geometry.blocks {
                continue;
            }
            let from = Regions::from_geometry(&self.geometry).block_from(block);
            if handle
                .read_unlocked(edges.noted_base, from, &mut bytes)
                .is_err()
            {
                return false;
            }
        }
        true
    }

    // Serves a READ whose missing blocks are read without locks. None if nothing is planned, there is no second handle or no memory, or
    // what was read wasn't enough each time. If a read fails the READ gets EIO: the keeper doesn't try it, because its faults stop the
    // export.
    fn serve_unlocked<R: Wait>(
        &self,
        rt: &R,
        pass: &mut Pass<B>,
        request: &Request,
        planned: Option<Planned>,
        terms: &Terms,
    ) -> Option<Served>
        requires may { MayServe T.logs T.trusted T.mode T.image B.opening B.image B.vouches B.trusted B.geometry request.now terms.now pass.old.client }
        requires planned { IfSome planned (λ planned. IsPlanned request.now.head terms.now.geometry terms.now.flags planned.span) }
        ensures served { IfSome result (λ served. IsServedAs T.logs T.trusted T.image B.opening B.image B.vouches B.trusted request.now terms.now pass.old pass.new served) }
        ensures unchanged { IfNone result (pass.new ≡ pass.old) }
    {
        let Some(mut planned) = planned else {
            return None;
        };
        let Some(handle) = &self.second_handle else {
            return None;
        };
        self.signals.note_miss();
        let head = request.head();
        let blocks = Blocks::from_head(&head);
        let Some(mut bytes) = self.take_buffer(rt, blocks.bytes()) else {
            return None;
        };
        for _ in 0..MOST_TRIES {
            let Ok(()) = self.read_span(handle, blocks.first, planned, &mut bytes) else {
                return Some(refuse(request, terms, Errno::Io));
            };
            let mut queue = lock_patiently(rt, &self.queue);
            let served = queue.serve_over(
                self.alloc,
                handle,
                request,
                planned,
                bytes,
                &self.board,
                pass,
                terms,
            );
            match served {
                Ok(served) => return Some(served),
                Err(back) => bytes = back,
            }
            match queue.plan(request, terms) {
                Some(again) => planned = again,
                None => return None,
            }
        }
        None
    }

    // A buffer of this many bytes; None without memory.
    fn take_buffer<R: Wait>(&self, rt: &R, length: usize) -> Option<Vec<u8>>
        ensures { IfSome result (λ buffer. vec_len buffer ≡ length) }
    {
        if length >= LEAST_KEPT {
            let kept = self.buffers.lock(rt).take(length);
            if kept.is_some() {
                return kept;
            }
        }
        vec![in self.alloc; 0; length].ok()
    }

    // Reads the blocks of a planned span, in one call without a lock. `into` begins with the block `first`.
    fn read_span(
        &self,
        handle: &H,
        first: u64,
        planned: Planned,
        into: &mut [u8],
    ) -> Result<(), DeviceFault>
        requires from { first ≤ planned.span.first }
        requires order { planned.span.first ≤ planned.span.end }
        requires inside { 4096 * (planned.span.end - first) ≤ length into.old }
        requires there { planned.span.first < self.now.geometry.blocks }
        ensures size { length into.new ≡ length into.old }
        ensures place { OnOk result (H.gives handle.now (base_of planned.noted_base) (block_at self.now.geometry planned.span.first)
            (slice_range into.new (4096 * (planned.span.first - first)) (4096 * (planned.span.end - first)))) }
    {
        let span = planned.span;
        let from = (BLOCK_BYTES * (span.first - first)) as usize;
        let end = (BLOCK_BYTES * (span.end - first)) as usize;
        handle.read_unlocked(
            planned.noted_base,
            Regions::from_geometry(&self.geometry).block_from(span.first),
            &mut into[from..end],
        )
    }

    // Serves a request with the keeper, under its lock and then the order's.
    fn serve_with_keeper<R: Wait>(
        &self,
        rt: &R,
        pass: &mut Pass<B>,
        request: Request,
        terms: Terms,
    ) -> Served
        requires { MayServe T.logs T.trusted T.mode T.image B.opening B.image B.vouches B.trusted B.geometry request terms pass.old.client }
        ensures { IsServedAs T.logs T.trusted T.image B.opening B.image B.vouches B.trusted request terms pass.old pass.new result }
    {
        let mut engine = self.lock_engine(rt);
        let mut queue = self.queue.lock(rt);
        let shared = &mut engine.shared;
        let served = queue.serve_with(self.alloc, request, shared, &self.board, pass, terms);
        if queue.is_stopped() {
            self.signals.notify_all();
            return served;
        }
        let (flusher, checkpointer) = queue.whom_to_wake();
        self.signals.note_slows_writers(queue.slows_writers());
        drop(queue);
        drop(engine);
        self.signals.notify(flusher, checkpointer);
        served
    }

    // Waits until a number is durable, or will never be. It stores a group meanwhile if nobody does.
    pub(crate) fn wait_for<R: Wait + Clock, G: SyncPoints>(
        &self,
        rt: &R,
        points: &mut G,
        pass: &mut Pass<B>,
        number: u64,
    ) -> Answer
        ensures { IsWaitedFor number pass.old pass.new result }
    {
        if self.board.look_durable(pass) >= number {
            return Answer::Done;
        }
        let mut queue = lock_patiently(rt, &self.queue);
        // If the number is durable by now, no waiter is counted.
        if self.board.look_durable(pass) >= number {
            return Answer::Done;
        }
        queue.begin_wait(number);
        for _ in rt.forever() {
            if self.board.look_durable(pass) >= number {
                return Answer::Done;
            }
            if queue.is_stopped() || queue.cannot_store() {
                return Answer::Refused(Errno::Io);
            }
            queue = match self.seal_for_waiter(rt, &mut queue) {
                Some(group) => {
                    drop(queue);
                    self.store_for_waiter(rt, points, group);
                    lock_patiently(rt, &self.queue)
                }
                None => self.signals.progress.wait(rt, queue),
            };
        }
        unreachable!()
    }

    /// Retires a pass: no request is submitted for it any more.
    pub fn leave<R: Wait>(&self, rt: &R, pass: ClientPass<B>) -> RetiredPass<B>
        ensures { result ≡ pass }
    {
        self.queue.lock(rt).leave();
        self.signals.work.notify_one();
        let ClientPass { pass } = pass;
        RetiredPass { pass }
    }

    /// The last pass learns what a retired one knew: both histories become prefixes of its own, and it keeps the greater durable number.
    /// Its roster gets what that client sent and was answered.
    pub fn join(&self, last: &mut LastPass<B>, other: RetiredPass<B>)
        ensures knew { IsPrefix last.old.pass.history last.new.pass.history }
        ensures other { IsPrefix other.history last.new.pass.history }
        ensures durable { last.new.pass.durable ≡ max last.old.pass.durable other.durable }
        ensures own { last.new.pass.own ≡ last.old.pass.own }
        ensures calls { last.new.roster ≡ record last.old.roster { calls = last.old.roster.calls ++ record { by = other.client.by; events = other.client.mine } ∷ [] } }
    {
        let RetiredPass { pass: mut other } = other;
        let known = self.board.tell(&mut other);
        self.board.learn(&mut last.pass, known);
        self.board.gather(&mut last.roster, other);
    }
}

// Answers a request, except a DISC, before anything of it was done: with the error of the validation rules, else with this one. A FLUSH
// gets EIO in place of ENOMEM.
fn refuse(request: &Request, terms: &Terms, errno: Errno) -> Served
    requires kind { request.now.head.kind ≢ 2 }
    requires errors { (errno ≡ Errno.Io) ⊎ (errno ≡ Errno.NoMemory) }
    ensures { IsUnserved terms.now.geometry terms.now.flags request.now result }
{
    let head = request.head();
    let errno = match judge(&head, &terms.geometry, &terms.flags) {
        Ok(Action::Serve) if head.kind == FLUSH => Errno::Io,
        Ok(Action::Serve) => errno,
        Ok(Action::End) => unreachable!(),
        Err(refusal) => refusal,
    };
    Served::Ready(Reply {
        cookie: head.cookie,
        answer: Answer::Refused(errno),
    })
}
