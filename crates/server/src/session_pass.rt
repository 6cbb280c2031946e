//! The passes of workers: all that the log has of a pass's client comes from its sessions, or is requests of them with their answers.
ghost use Rattle.std.specs.Prelude.{◌≡◌, ◌≢◌, ◌⊎◌, ◌≤◌, ◌<◌, ℕ, [], false, true, get_or, length, vec_len, IfErr, IfOk, IfSome, IsTrue};
ghost use mathlib.Core.List.{IsPrefix};
ghost use Rattle.export.specs.Begun.{IsBegun};
ghost use Rattle.export.specs.Clients.{new_client_passes};
ghost use Rattle.export.specs.Submits.{IsReplied};
ghost use Rattle.export_model.specs.Log.{flush_waits};
ghost use Rattle.export_model.specs.declared.step.Mode.{Mode};
ghost use Rattle.marks.specs.Known.{PassState, known};
ghost use Rattle.nbd_wire.specs.Reply.{IsAnswerTo};
ghost use Rattle.nbd_wire.specs.Request.{Message};
ghost use Rattle.nbd_wire.specs.declared.error.Errno.TheVariants as Errno;
ghost use Rattle.nbd_wire.specs.declared.message.Answer.TheVariants as Answer;
ghost use Rattle.nbd_wire.specs.declared.message.SessionFlags.{SessionFlags};
ghost use Rattle.negotiation.specs.Answered.{offered};
ghost use Rattle.negotiation.specs.Serving.{IsServed};
ghost use Rattle.server.specs.Sessions.{AreServed, HasAll, HasCall, HasSessions, IsLogged, WaitsOn};
ghost use Rattle.shared_store.specs.Orders.{Trusting};

use crate::name::ServerName;
use crate::request_handler::RequestHandler;
use crate::watch::Watch;
use disk_model::Disk;
use export::{
    ClientPass, Export, ExportFigures, Finished, LastPass, ReadUnlocked, RetiredPass, SyncPoints,
    WaitingPass,
};
use marks::Trust;
use nbd_wire::{Reply, Request, SessionFlags};
use negotiation::{End, serve_session};
use std::alloc::Global;
use std::io::{Read, Write};
use std::rt::Clock;
use std::sync::Wait;

/// The most passes of a server: one for each of 16 requests in progress of each of 16 workers, and one for `nbdj status --store`.
const MOST_PASSES: usize = 257;

/// The pass of a worker, which serves one session after another.
#[derive(Drop)]
pub(crate) struct SessionPass<B: ServerName> {
    pass: ClientPass<B>,
    // The number of its client in the proofs' log.
    client_number: usize,
    ghost in_range: { client_number < 257 },
    ghost by: { pass.client.by ≡ client_number },
    ghost served: { HasSessions B.offer B.geometry B.several pass.client.by pass.client.mine },
}

impl<B: ServerName> SessionPass<B> {
    /// Serves a session over these streams from its first byte to its last. The log gains its requests with their answers.
    pub(crate) fn serve<D, H, T, R, L, I, O>(
        &mut self,
        alloc: Global,
        input: &mut I,
        output: &mut O,
        handler: &RequestHandler<'_, B, D, H, T, R, L>,
    ) -> Result<(), End>
    where
        D: Disk,
        H: ReadUnlocked,
        T: Trust,
        R: Wait + Clock,
        L: SyncPoints + Watch + Copy,
        I: Read,
        O: Write,
        requires { offered handler.now.export.now.geometry handler.now.name.bytes.now (flush_waits handler.now.export.now.mode) ≡ B.offer }
        ensures { IsServed (IsLogged B.geometry self.old.client_number) B.offer self.old.pass.client.mine self.new.pass.client.mine (I.remaining input.old) (I.remaining input.new) (O.contents output.old) (O.contents output.new) result }
    {
        serve_session(alloc, input, output, handler, &mut self.pass)
    }

    /// Begins a request, except a DISC, of a session that may have several in progress: the reply, unless the request waits until
    /// something is stored.
    pub(crate) fn begin<D: Disk, H: ReadUnlocked, T: Trust, R: Wait + Clock, G: SyncPoints>(
        self,
        rt: &R,
        points: &mut G,
        export: &Export<B, D, H, T>,
        request: Request,
        flags: &SessionFlags,
    ) -> Result<(SessionPass<B>, Reply), WaitingSessionPass<B, T>>
        requires several { B.several ≡ true }
        requires kind { request.head.kind ≢ 2 }
        ensures cookie { IfOk result (λ begun. begun.1.cookie ≡ request.head.cookie) }
        ensures kind { IfOk result (λ begun. IsAnswerTo flags.now request.head.kind begun.1.answer) }
        ensures logged { IfOk result (λ begun. IsLogged B.geometry self.client_number self.pass.client.mine request flags.now begun.0.pass.client.mine begun.1) }
        ensures waits { IfErr result (λ waiting. (waiting.client_number ≡ self.client_number) × IsBegun B.opening B.image (Trusting B.opening B.image B.vouches B.trusted)
            request export.now.mode B.geometry flags.now self.pass waiting.pass) }
    {
        let client_number = self.client_number;
        match export.begin(rt, points, self.pass, request, flags) {
            Ok((pass, reply)) => Ok((
                SessionPass {
                    pass,
                    client_number,
                },
                reply,
            )),
            Err(pass) => Err(WaitingSessionPass {
                pass,
                client_number,
            }),
        }
    }

    /// Stores what is pending, and waits for it.
    pub(crate) fn flush<D: Disk, H: ReadUnlocked, T: Trust, R: Wait + Clock, G: SyncPoints>(
        &mut self,
        rt: &R,
        export: &Export<B, D, H, T>,
        points: &mut G,
    ) {
        let _flushed = export.flush(rt, points, &mut self.pass);
    }

    /// Retires the pass.
    pub(crate) fn leave<D: Disk, H: ReadUnlocked, T: Trust, R: Wait>(
        self,
        rt: &R,
        export: &Export<B, D, H, T>,
    ) -> RetiredSessionPass<B> {
        RetiredSessionPass {
            pass: export.leave(rt, self.pass),
            client_number: self.client_number,
        }
    }
}

/// The pass of a request that waits until something is stored, while its session goes on.
#[derive(Drop)]
pub(crate) struct WaitingSessionPass<B: ServerName, T: Trust> {
    pass: WaitingPass<B, T>,
    client_number: usize,
    ghost in_range: { client_number < 257 },
    ghost several: { B.several ≡ true },
    ghost begun: { WaitsOn B.opening B.image (Trusting B.opening B.image B.vouches B.trusted) B.offer B.geometry B.several client_number pass },
}

impl<B: ServerName, T: Trust> WaitingSessionPass<B, T> {
    /// The number that has to be durable before the request is answered.
    pub(crate) fn number(&self) -> u64
        ensures { result ≡ self.now.pass.number }
    {
        self.pass.number()
    }

    /// Waits until the request can be answered: its reply, and the durable number that its pass then knows.
    pub(crate) fn finish<D: Disk, H: ReadUnlocked, R: Wait + Clock, G: SyncPoints>(
        self,
        rt: &R,
        export: &Export<B, D, H, T>,
        points: &mut G,
    ) -> (SessionPass<B>, Reply, u64)
        ensures replied { (old : PassState) (request : Message) (kept : Mode) (flags : SessionFlags) → IsBegun B.opening B.image (Trusting B.opening B.image B.vouches B.trusted)
            request kept B.geometry flags old self.pass → IsReplied B.opening B.image (Trusting B.opening B.image B.vouches B.trusted)
            request kept B.geometry flags old result.0.pass result.1 }
        ensures cookie { result.1.cookie ≡ self.pass.cookie }
        ensures answer { (result.1.answer ≡ Answer.Done) ⊎ (result.1.answer ≡ Answer.Refused Errno.Io) }
        ensures durable { result.2 ≡ result.0.pass.durable }
    {
        let client_number = self.client_number;
        let finished = export.finish(rt, points, self.pass);
        let Finished {
            pass,
            reply,
            durable,
        } = finished;
        (
            SessionPass {
                pass,
                client_number,
            },
            reply,
            durable,
        )
    }
}

/// The pass of a worker that serves no more sessions.
#[derive(Drop)]
pub(crate) struct RetiredSessionPass<B: ServerName> {
    pass: RetiredPass<B>,
    client_number: usize,
    ghost in_range: { client_number < 257 },
    ghost by: { pass.client.by ≡ client_number },
    ghost served: { HasSessions B.offer B.geometry B.several pass.client.by pass.client.mine },
}

impl<B: ServerName> RetiredSessionPass<B> {
    /// Has all that is accepted by now stored, and waits until it is: the last number of it, or None if it never will be. The contract covers
    /// only what the pass knew before.
    pub(crate) fn store<D: Disk, H: ReadUnlocked, T: Trust, R: Wait + Clock, G: SyncPoints>(
        &mut self,
        rt: &R,
        export: &Export<B, D, H, T>,
        points: &mut G,
    ) -> Option<u64>
        ensures stored { IfSome result (λ number. (known self.old.pass ≤ number) × (number ≤ self.new.pass.durable)) }
        ensures knew { IsPrefix self.old.pass.history self.new.pass.history }
        ensures lasts { self.old.pass.durable ≤ self.new.pass.durable }
        ensures client { self.new.pass.client ≡ self.old.pass.client }
    {
        export.store_accepted(rt, points, &mut self.pass)
    }
}

/// Passes that no worker has yet.
#[derive(Drop)]
pub(crate) struct NewPasses<B: ServerName> {
    passes: Vec<ClientPass<B>>,
    ghost few: { vec_len passes ≤ 257 },
    ghost new: { passes.items ≡ new_client_passes B.opening (length passes.items) },
}

impl<B: ServerName> NewPasses<B> {
    pub(crate) fn new(passes: Vec<ClientPass<B>>) -> NewPasses<B>
        requires few { vec_len passes ≤ 257 }
        requires new { passes.items ≡ new_client_passes B.opening (length passes.items) }
    {
        NewPasses { passes }
    }

    /// How many there are.
    pub(crate) fn len(&self) -> usize {
        self.passes.len()
    }

    /// One of them; None if none is left.
    pub(crate) fn take(&mut self) -> Option<SessionPass<B>> {
        match self.passes.pop() {
            Some(pass) => Some(SessionPass {
                pass,
                client_number: self.passes.len(),
            }),
            None => None,
        }
    }
}

/// The last pass, which the others join.
#[derive(Drop)]
pub(crate) struct LastSessionPass<B: ServerName> {
    last: LastPass<B>,
    // How many passes there were, and which of them have joined it.
    made: usize,
    joined: [bool; MOST_PASSES],
    ghost made_few: { made ≤ 257 },
    ghost roster: { last.roster.made ≡ made },
    ghost has: { (by : ℕ) → get_or joined by false ≡ true → ∥ HasCall by last.roster.calls ∥₁ },
    ghost served: { ∥ AreServed B.offer B.geometry B.several last.roster.calls ∥₁ },
}

impl<B: ServerName> LastSessionPass<B> {
    /// The last pass of an export with this many others; none has joined.
    pub(crate) fn new(last: LastPass<B>, made: usize) -> LastSessionPass<B>
        requires few { made ≤ 257 }
        requires made { last.roster.made ≡ made }
        requires none { last.roster.calls ≡ [] }
    {
        LastSessionPass {
            last,
            made,
            joined: [false; MOST_PASSES],
        }
    }

    /// A pass joins it.
    pub(crate) fn join<D: Disk, H: ReadUnlocked, T: Trust>(
        &mut self,
        export: &Export<B, D, H, T>,
        other: RetiredSessionPass<B>,
    ) {
        let RetiredSessionPass {
            pass,
            client_number,
        } = other;
        export.join(&mut self.last, pass);
        self.joined[client_number] = true;
    }

    /// The figures of an export. The last pass learns the accepted and the durable number from them.
    pub(crate) fn figures<D: Disk, H: ReadUnlocked, T: Trust, R: Wait + Clock>(
        &mut self,
        rt: &R,
        export: &Export<B, D, H, T>,
    ) -> ExportFigures
        ensures accepted { result.accepted ≡ self.new.last.pass.accepted }
        ensures durable { result.durable ≡ self.new.last.pass.durable }
        ensures later { self.old.last.pass.durable ≤ self.new.last.pass.durable }
        ensures knew { IsPrefix self.old.last.pass.history self.new.last.pass.history }
        ensures roster { self.new.last.roster ≡ self.old.last.roster }
    {
        export.figures(rt, &mut self.last)
    }

    // Whether all passes have joined it.
    fn has_all(&self) -> bool
        ensures { IsTrue result → HasAll self.now.last.roster }
    {
        for at in 0..self.made {
            if !self.joined[at] {
                return false;
            }
        }
        true
    }

    /// What the export is closed with, and whether all passes have joined it.
    pub(crate) fn into_last(self) -> (LastPass<B>, bool)
        ensures served { ∥ AreServed B.offer B.geometry B.several result.0.roster.calls ∥₁ }
        ensures all { IsTrue result.1 → HasAll result.0.roster }
    {
        let has_all = self.has_all();
        (self.last, has_all)
    }
}
