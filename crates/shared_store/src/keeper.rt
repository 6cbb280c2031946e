ghost use Rattle.std.specs.Prelude.{◌≡◌, ◌+◌, ◌<◌, ◌≤◌, ◌↔◌, ◌≢◌, [], ℕ, List, Result, Err, false, IfErr, IfOk, IsErrAnd, IsTrue, OnErr, OnOk, length, max};
ghost use mathlib.Core.List.{IsPrefix};
ghost use Rattle.checkpoint.specs.Keeper.{end_after, faults_by, grown_by, refused_by};
ghost use Rattle.checkpoint.specs.Recovery.{IsRecovered};
ghost use Rattle.checkpoint.specs.Steps.{IsCopyTime, IsFinishTime, IsMapTime, IsRotateTime, IsStepFault, copied_by, finished_by, mapped_by, rotated_by};
ghost use Rattle.checkpoint.specs.declared.fault.KeeperFault.TheVariants as KeeperFault;
ghost use Rattle.device_image.specs.Holds.{Holds};
ghost use Rattle.device_image.specs.Stands.{StandsFor};
ghost use Rattle.disk_model.specs.Disk.{LeavesOnly, MayLeave};
ghost use Rattle.export_model.specs.Verdict.{verdict};
ghost use Rattle.export_model.specs.declared.action.Action.{Action};
ghost use Rattle.image_model.specs.Image.{apply_all};
ghost use Rattle.nbd_wire.specs.declared.error.Errno.{Errno};
ghost use Rattle.order_book.specs.Edits.{IsKnownBy};
ghost use Rattle.order_book.specs.Order.{PublishesTo, with_durable};
ghost use Rattle.regions.specs.Layout.{area_size};
ghost use Rattle.request_core.specs.Outcomes.{IsServedBy};
ghost use Rattle.request_core.specs.Serving.{HasSent, IsClientServed, IsPassServed};
ghost use Rattle.shared_store.specs.Keepers.{HasLeft, IsOfHistory};
ghost use Rattle.shared_store.specs.Parts.{StandsWithin};
ghost use Rattle.shared_store.specs.Back.{IsBack, IsFull};

use crate::group::SealedGroup;
use crate::name::ImageName;
use checkpoint::{Keeper, KeeperFault};
use disk_model::Disk;
use image_model::Command;
use marks::{Board, KeeperSeat, Pass, Trust};
use nbd_wire::Request;
use order_book::Order;
use request_core::{Served, Terms, serve_with_keeper};
use std::alloc::Global;
use std::marker::Model;

/// Why a group wasn't stored.
pub enum Unstored<B: ImageName> {
    /// Memory was refused.
    NoMemory(SealedGroup<B>),
    /// The group doesn't fit the area.
    AreaFull(SealedGroup<B>),
    /// A call of the device failed, in this call or before: no group will be stored any more.
    Failed,
}

/// A keeper with the seat that raises the durable number, both under one lock. What it has stored is a prefix of the history.
pub struct SharedKeeper<B: ImageName, D: Disk> {
    seat: KeeperSeat<B>,
    keeper: Keeper<D>,
}

// Written out, it is proved once, and not again in each function that lets a keeper go.
impl<B: ImageName, D: Disk + Drop> Drop for SharedKeeper<B, D> {
    fn drop(self) {
        let SharedKeeper { seat: _, keeper: _ } = self;
    }
}

impl<B: ImageName, D: Disk> Model for SharedKeeper<B, D> {
    ghost use Rattle.shared_store.specs.Keepers.{KeepsHistory, SeatedState};

    ghost Value = { SeatedState D };

    ghost view = { λ shared. record { seat = shared.seat; keeper = shared.keeper } };

    ghost invariant = { λ shared. KeepsHistory D.state D.honest B.opening B.image B.start B.trusted shared.seat shared.keeper };
}

impl<B: ImageName, D: Disk> SharedKeeper<B, D> {
    /// The keeper of a device that was opened: nothing is stored above what the opening found.
    pub fn new(keeper: Keeper<D>, seat: KeeperSeat<B>) -> SharedKeeper<B, D>
        requires recovered { IsRecovered keeper }
        requires opening { keeper.count ≡ B.opening }
        requires seat { seat ≡ record { history = []; accepted = keeper.count; durable = keeper.count; base = keeper.count } }
        requires blocks { keeper.geometry.blocks ≡ B.image.blocks }
        requires honest { B.trusted → D.honest keeper.disk }
        requires image { B.trusted → Holds keeper (D.state keeper.disk) B.image [] [] }
        requires start { B.trusted → LeavesOnly B.start (D.state keeper.disk) (λ content. StandsFor content B.image B.opening) }
        ensures { result ≡ record { seat = seat; keeper = keeper } }
    {
        SharedKeeper { seat, keeper }
    }

    /// The keeper, to look at. What it has stored is a prefix of the history.
    pub fn keeper(&self) -> &Keeper<D>
        ensures { result.now ≡ self.now.keeper }
    {
        &self.keeper
    }

    /// The keeper, as it is, and its seat.
    pub(crate) fn into_parts(self) -> (Keeper<D>, KeeperSeat<B>)
        ensures keeper { result.0 ≡ self.keeper }
        ensures seat { result.1 ≡ self.seat }
    {
        let SharedKeeper { seat, keeper } = self;
        (keeper, seat)
    }

    /// Stores a sealed group after all that is stored; one that may be stored later comes back.
    pub fn append<T: Trust>(
        &mut self,
        board: &Board<B, T>,
        sealed: SealedGroup<B>,
    ) -> Result<(), Unstored<B>>
        ensures ok { OnOk result (self.new.keeper ≡ grown_by self.old.keeper sealed.group self.new.keeper.disk self.new.keeper.memory) }
        ensures told { OnOk result (IsPrefix sealed.told self.new.seat.history) }
        ensures full { IsErrAnd result IsFull ↔ ((self.old.keeper.failed ≡ false) × (area_size self.old.keeper.geometry < end_after self.old.keeper sealed.group)) }
        ensures back { IfErr result (IsBack D.faults sealed self.old.keeper self.new.keeper) }
        ensures seen { IsPrefix self.old.seat.history self.new.seat.history }
        ensures durable { self.new.seat.durable ≡ self.old.seat.durable }
        ensures geometry { self.new.keeper.geometry ≡ self.old.keeper.geometry }

        // A crash at any moment leaves all that was stored before it, of one history.
        ensures any_moment { B.trusted → LeavesOnly (D.state self.old.keeper.disk) (D.state self.new.keeper.disk)
            (StandsWithin B.opening B.image self.new.seat.history self.old.keeper.count) }
    {
        let (group, told) = sealed.into_parts();
        match self.keeper.append(group) {
            Ok(()) => {
                board.inform(&mut self.seat, told);
                Ok(())
            }
            Err((KeeperFault::NoMemory, group)) => {
                Err(Unstored::NoMemory(SealedGroup::new(group, told)))
            }
            Err((KeeperFault::AreaFull, group)) => {
                Err(Unstored::AreaFull(SealedGroup::new(group, told)))
            }
            Err((_, group)) => {
                board.inform(&mut self.seat, told);
                let _parts = group.into_parts();
                Err(Unstored::Failed)
            }
        }
    }

    /// Frees memory that is kept for the next steps.
    pub fn free_memory(&mut self)
        ensures { self.new ≡ self.old }
    {
        self.keeper.free_memory();
    }

    /// The memory that is kept for the bytes of a group.
    pub fn take_buffer(&mut self) -> Vec<u8>
        ensures { self.new ≡ self.old }
    {
        self.keeper.take_buffer()
    }

    /// Gives it memory for the bytes of a group.
    pub fn give_buffer(&mut self, buffer: Vec<u8>)
        ensures { self.new ≡ self.old }
    {
        self.keeper.give_buffer(buffer);
    }

    /// The commands of the last group that was stored, for those who use their memory again.
    pub fn take_stored(&mut self) -> Vec<Command>
        ensures { self.new ≡ self.old }
    {
        self.keeper.take_stored()
    }

    /// Raises the order's durable number to what is stored.
    pub fn publish<T: Trust>(&mut self, board: &Board<B, T>, order: &mut Order<B>)
        ensures order { order.new ≡ with_durable order.old self.old.keeper.count }
        ensures keeper { self.new.keeper ≡ self.old.keeper }
        ensures seat { PublishesTo self.old.seat order.old self.old.keeper.count self.new.seat }
    {
        order.publish(board, &mut self.seat, &self.keeper);
    }
}

impl<B: ImageName, D: Disk> SharedKeeper<B, D> {
    /// Takes the next area into use. Refusals as of [`Keeper::rotate`].
    pub fn rotate(&mut self) -> Result<(), KeeperFault>
        ensures ok { OnOk result (self.new.keeper ≡ rotated_by self.old.keeper self.new.keeper.disk self.new.keeper.memory) }
        ensures err { IfErr result (λ fault. self.new.keeper ≡ refused_by fault self.old.keeper self.new.keeper.disk) }
        ensures failed { (result ≡ Err KeeperFault.Failed) ↔ IsTrue self.old.keeper.failed }
        ensures not_now { (result ≡ Err KeeperFault.NotNow) ↔ ((self.old.keeper.failed ≡ false) × (IsRotateTime self.old.keeper → ⊥)) }
        ensures full { (result ≡ Err KeeperFault.NumbersFull)
            ↔ ((self.old.keeper.failed ≡ false) × IsRotateTime self.old.keeper × (self.old.keeper.generation ≡ 18446744073709551615)) }
        ensures only { IfErr result IsStepFault }
        ensures faults_ok { OnOk result (D.faults self.new.keeper.disk ≡ D.faults self.old.keeper.disk) }
        ensures faults_err { IfErr result (λ fault. D.faults self.new.keeper.disk ≡ faults_by fault (D.faults self.old.keeper.disk)) }
        ensures seat { self.new.seat ≡ self.old.seat }
        ensures any_moment { B.trusted → LeavesOnly (D.state self.old.keeper.disk) (D.state self.new.keeper.disk)
            (StandsWithin B.opening B.image self.new.seat.history self.old.keeper.count) }
    {
        self.keeper.rotate()
    }

    /// Copies the next blocks of the first area into the image, at most `most`, and answers how many. Refusals as of
    /// [`Keeper::copy_some`].
    pub fn copy_some(&mut self, most: u32) -> Result<u32, KeeperFault>
        requires { 1 ≤ most }
        ensures ok { IfOk result (λ blocks. (1 ≤ blocks) × (blocks ≤ most)
            × (self.new.keeper ≡ copied_by self.old.keeper blocks self.new.keeper.disk self.new.keeper.memory)) }
        ensures err { IfErr result (λ fault. self.new.keeper ≡ refused_by fault self.old.keeper self.new.keeper.disk) }
        ensures failed { (result ≡ Err KeeperFault.Failed) ↔ IsTrue self.old.keeper.failed }
        ensures not_now { (result ≡ Err KeeperFault.NotNow) ↔ ((self.old.keeper.failed ≡ false) × (IsCopyTime self.old.keeper.phase → ⊥)) }
        ensures full { result ≢ Err KeeperFault.NumbersFull }
        ensures only { IfErr result IsStepFault }
        ensures faults_ok { OnOk result (D.faults self.new.keeper.disk ≡ D.faults self.old.keeper.disk) }
        ensures faults_err { IfErr result (λ fault. D.faults self.new.keeper.disk ≡ faults_by fault (D.faults self.old.keeper.disk)) }
        ensures seat { self.new.seat ≡ self.old.seat }
        ensures any_moment { B.trusted → LeavesOnly (D.state self.old.keeper.disk) (D.state self.new.keeper.disk)
            (StandsWithin B.opening B.image self.new.seat.history self.old.keeper.count) }
    {
        self.keeper.copy_some(most)
    }

    /// Writes the map after the first area. Refusals as of [`Keeper::write_map`].
    pub fn write_map(&mut self) -> Result<(), KeeperFault>
        ensures ok { OnOk result (self.new.keeper ≡ mapped_by self.old.keeper self.new.keeper.disk self.new.keeper.memory) }
        ensures err { IfErr result (λ fault. self.new.keeper ≡ refused_by fault self.old.keeper self.new.keeper.disk) }
        ensures failed { (result ≡ Err KeeperFault.Failed) ↔ IsTrue self.old.keeper.failed }
        ensures not_now { (result ≡ Err KeeperFault.NotNow) ↔ ((self.old.keeper.failed ≡ false) × (IsMapTime self.old.keeper.phase → ⊥)) }
        ensures full { result ≢ Err KeeperFault.NumbersFull }
        ensures only { IfErr result IsStepFault }
        ensures faults_ok { OnOk result (D.faults self.new.keeper.disk ≡ D.faults self.old.keeper.disk) }
        ensures faults_err { IfErr result (λ fault. D.faults self.new.keeper.disk ≡ faults_by fault (D.faults self.old.keeper.disk)) }
        ensures seat { self.new.seat ≡ self.old.seat }
        ensures any_moment { B.trusted → LeavesOnly (D.state self.old.keeper.disk) (D.state self.new.keeper.disk)
            (StandsWithin B.opening B.image self.new.seat.history self.old.keeper.count) }
    {
        self.keeper.write_map()
    }

    /// Ends the checkpoint of the first area, and raises the base to the area's last number. Refusals as of [`Keeper::finish`].
    pub fn finish<T: Trust>(&mut self, board: &Board<B, T>) -> Result<(), KeeperFault>
        ensures ok { OnOk result (self.new.keeper ≡ finished_by self.old.keeper self.new.keeper.disk self.new.keeper.memory) }
        ensures err { IfErr result (λ fault. self.new.keeper ≡ refused_by fault self.old.keeper self.new.keeper.disk) }
        ensures failed { (result ≡ Err KeeperFault.Failed) ↔ IsTrue self.old.keeper.failed }
        ensures not_now { (result ≡ Err KeeperFault.NotNow) ↔ ((self.old.keeper.failed ≡ false) × (IsFinishTime self.old.keeper.phase → ⊥)) }
        ensures full { (result ≡ Err KeeperFault.NumbersFull)
            ↔ ((self.old.keeper.failed ≡ false) × IsFinishTime self.old.keeper.phase × (self.old.keeper.generation ≡ 18446744073709551615)) }
        ensures memory { result ≢ Err KeeperFault.NoMemory }
        ensures only { IfErr result IsStepFault }
        ensures faults_ok { OnOk result (D.faults self.new.keeper.disk ≡ D.faults self.old.keeper.disk) }
        ensures faults_err { IfErr result (λ fault. D.faults self.new.keeper.disk ≡ faults_by fault (D.faults self.old.keeper.disk)) }
        ensures seat { OnOk result (self.new.seat ≡ record self.old.seat { base = self.new.keeper.base }) }
        ensures same { OnErr result (self.new.seat ≡ self.old.seat) }
        ensures any_moment { B.trusted → LeavesOnly (D.state self.old.keeper.disk) (D.state self.new.keeper.disk)
            (StandsWithin B.opening B.image self.new.seat.history self.old.keeper.count) }
    {
        self.keeper.finish()?;
        let base = self.keeper.base();
        board.raise_base(&mut self.seat, base);
        Ok(())
    }
}

impl<B: ImageName, D: Disk> SharedKeeper<B, D> {
    /// Learns the order's history: what is stored is a prefix of it, and the base is no less than the one that the order knows.
    pub fn meet<T: Trust>(&mut self, board: &Board<B, T>, order: &mut Order<B>)
        ensures order { order.new ≡ order.old }
        ensures keeper { self.new.keeper ≡ self.old.keeper }
        ensures history { self.new.seat.history ≡ order.old.history }
        ensures base { order.old.base ≤ self.new.keeper.base }
        ensures stored { IsOfHistory D.state D.honest B.opening B.image B.trusted self.new.seat self.new.keeper }
        ensures passed { B.trusted → HasLeft B.start (D.state self.new.keeper.disk) B.opening B.image self.new.seat.history }
    {
        order.meet(board, &mut self.seat);
    }

    /// Tells the order the base.
    pub fn tell_base<T: Trust>(&mut self, board: &Board<B, T>, order: &mut Order<B>)
        ensures order { order.new ≡ record order.old { base = max order.old.base self.old.keeper.base } }
        ensures same { self.new ≡ self.old }
    {
        order.learn_base(board, &mut self.seat);
    }

    /// Compares with a pass: what the pass knows is a prefix of the history too, and what it knows to be durable is stored. A crash now
    /// leaves the image after a prefix of the history that has all of that.
    pub fn meet_pass<T: Trust>(&mut self, board: &Board<B, T>, pass: &mut Pass<B>)
        ensures keeper { self.new.keeper ≡ self.old.keeper }
        ensures seen { IsPrefix self.old.seat.history self.new.seat.history }
        ensures known { IsPrefix pass.old.history self.new.seat.history }
        ensures knew { IsPrefix pass.old.history pass.new.history }
        ensures durable { pass.old.durable ≤ self.old.keeper.count }
        ensures pass { pass.new ≡ record pass.old { history = pass.new.history; accepted = pass.new.accepted } }
        ensures left { B.trusted → (content : List ℕ) → MayLeave (D.state self.old.keeper.disk) content
            → StandsWithin B.opening B.image self.new.seat.history pass.old.durable content }
        ensures passed { B.trusted → HasLeft B.start (D.state self.old.keeper.disk) B.opening B.image self.new.seat.history }
    {
        let told = board.tell(pass);
        board.inform(&mut self.seat, told);
    }

    /// Serves a request that isn't a DISC, with the keeper.
    pub(crate) fn serve<T: Trust>(
        &mut self,
        alloc: Global,
        request: Request,
        order: &mut Order<B>,
        board: &Board<B, T>,
        pass: &mut Pass<B>,
        terms: Terms,
    ) -> Served
        requires kind { request.head.kind ≢ 2 }
        requires blocks { length order.old.cache.states ≡ terms.geometry.blocks }
        requires device { terms.geometry ≡ self.old.keeper.geometry }
        requires asked { T.logs → HasSent T.trusted T.image order.old request pass.old.client }
        requires known { T.logs → T.trusted → self.old.keeper.failed ≡ false → IsKnownBy D.state D.honest self.old.keeper order.old (apply_all order.old.history T.image) }
        ensures geometry { self.new.keeper.geometry ≡ self.old.keeper.geometry }
        ensures count { self.new.keeper.count ≡ self.old.keeper.count }
        ensures blocks { length order.new.cache.states ≡ length order.old.cache.states }
        ensures serves { (given : Result Action Errno) × (given ≡ verdict request.head terms.geometry terms.flags)
            × IsServedBy D.state D.faults D.honest given request terms.geometry terms.mode order.old order.new self.old.keeper self.new.keeper result }
        ensures pass { IsPassServed B.opening request order.old.mark order.new.mark result pass.old pass.new }
        ensures client { IsClientServed T.mode request order.old.mark order.new.mark result pass.old.client pass.new.client }
        ensures grown { order.old.mark < order.new.mark → pass.new.history ≡ order.new.history }
        ensures seat { self.new.seat ≡ self.old.seat }
        ensures any_moment { B.trusted → LeavesOnly (D.state self.old.keeper.disk) (D.state self.new.keeper.disk)
            (StandsWithin B.opening B.image self.new.seat.history self.old.keeper.count) }
    {
        serve_with_keeper(alloc, request, order, &mut self.keeper, board, pass, terms)
    }
}
