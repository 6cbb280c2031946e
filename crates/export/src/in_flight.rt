//! Requests whose client goes on with others while they wait.
ghost use Rattle.std.specs.Prelude.{◌≡◌, ◌≢◌, ◌⊎◌, IfErr, IfOk};
ghost use Rattle.export.specs.Begun.{IsBegun};
ghost use Rattle.export.specs.Submits.{IsReplied};
ghost use Rattle.export_model.specs.declared.step.Mode.{Mode};
ghost use Rattle.marks.specs.Known.{PassState};
ghost use Rattle.nbd_wire.specs.Request.{Message};
ghost use Rattle.nbd_wire.specs.declared.error.Errno.TheVariants as Errno;
ghost use Rattle.nbd_wire.specs.declared.message.Answer.TheVariants as Answer;
ghost use Rattle.nbd_wire.specs.declared.message.SessionFlags.{SessionFlags};
ghost use Rattle.shared_store.specs.Orders.{Trusting};

use crate::client_pass::ClientPass;
use crate::export::Export;
use crate::name::ExportName;
use crate::second_handle::ReadUnlocked;
use crate::sync_points::SyncPoints;
use disk_model::Disk;
use marks::{Pass, Trust};
use nbd_wire::{Answer, Reply, Request, SessionFlags};
use request_core::Terms;
use std::marker::{Model, PhantomData};
use std::rt::Clock;
use std::sync::Wait;

/// The pass of a client whose request waits until a number is durable.
#[derive(Drop)]
pub struct WaitingPass<B: ExportName, T: Trust> {
    pass: Pass<B>,
    number: u64,
    cookie: u64,
    of: PhantomData<T>,
}

impl<B: ExportName, T: Trust> Model for WaitingPass<B, T> {
    ghost use Rattle.export.specs.Begun.{IsWaitingClient, WaitingState};

    ghost Value = { WaitingState };

    ghost view = { λ waiting. record { pass = waiting.pass; number = waiting.number; cookie = waiting.cookie } };

    ghost invariant = { λ waiting. IsWaitingClient T.logs waiting.number waiting.pass.client };
}

impl<B: ExportName, T: Trust> WaitingPass<B, T> {
    /// The number that has to be durable before the request is answered.
    pub fn number(&self) -> u64
        ensures { result ≡ self.now.number }
    {
        self.number
    }
}

/// The reply to a request that has waited, the pass of its client, and the durable number that this then knows.
#[derive(Drop)]
pub struct Finished<B: ExportName> {
    pub pass: ClientPass<B>,
    pub reply: Reply,
    pub durable: u64,
}

impl<B: ExportName, D: Disk, H: ReadUnlocked, T: Trust> Export<B, D, H, T> {
    /// Serves a request of a pass, except a DISC, as [`Export::submit`] does, but doesn't wait until something is durable: a request
    /// whose answer promises that comes back as `Err`, and [`Export::finish`] answers it. It may wait for room.
    pub fn begin<R: Wait + Clock, G: SyncPoints>(
        &self,
        rt: &R,
        points: &mut G,
        pass: ClientPass<B>,
        request: Request,
        flags: &SessionFlags,
    ) -> Result<(ClientPass<B>, Reply), WaitingPass<B, T>>
        requires { request.head.kind ≢ 2 }
        ensures answered { IfOk result (λ answered. IsReplied B.opening B.image (Trusting B.opening B.image B.vouches B.trusted)
            request self.now.mode self.now.geometry flags.now pass answered.0 answered.1) }
        ensures waits { IfErr result (λ waiting. IsBegun B.opening B.image (Trusting B.opening B.image B.vouches B.trusted)
            request self.now.mode self.now.geometry flags.now pass waiting) }
    {
        let cookie = request.head().cookie;
        let terms = Terms {
            geometry: self.geometry,
            flags: *flags,
            mode: self.log.mode(),
        };
        let ClientPass { mut pass } = pass;
        let request = self.board.begin(&mut pass, request);
        match self.serve_at_once(rt, points, &mut pass, request, terms) {
            Ok(answer) => {
                let answer = self.board.answer(&mut pass, answer);
                Ok((ClientPass { pass }, Reply { cookie, answer }))
            }
            Err(number) => Err(WaitingPass {
                pass,
                number,
                cookie,
                of: PhantomData,
            }),
        }
    }

    /// Waits until the number of a request is durable, or will never be, and answers it. It stores a group meanwhile if nobody does, and
    /// then reaches `points`.
    pub fn finish<R: Wait + Clock, G: SyncPoints>(
        &self,
        rt: &R,
        points: &mut G,
        waiting: WaitingPass<B, T>,
    ) -> Finished<B>
        ensures replied { (old : PassState) (request : Message) (kept : Mode) (flags : SessionFlags) → IsBegun B.opening B.image (Trusting B.opening B.image B.vouches B.trusted)
            request kept self.now.geometry flags old waiting → IsReplied B.opening B.image (Trusting B.opening B.image B.vouches B.trusted)
            request kept self.now.geometry flags old result.pass result.reply }
        ensures cookie { result.reply.cookie ≡ waiting.cookie }
        ensures answer { (result.reply.answer ≡ Answer.Done) ⊎ (result.reply.answer ≡ Answer.Refused Errno.Io) }
        ensures durable { result.durable ≡ result.pass.durable }
    {
        let WaitingPass {
            mut pass,
            number,
            cookie,
            of: _,
        } = waiting;
        let answer = self.wait_for(rt, points, &mut pass, number);
        let durable = self.board.look_durable(&mut pass);
        let answer = self.board.answer(&mut pass, answer);
        Finished {
            pass: ClientPass { pass },
            reply: Reply { cookie, answer },
            durable,
        }
    }
}
