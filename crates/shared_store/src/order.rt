ghost use Rattle.std.specs.Prelude.{◌≡◌, ◌≢◌, ◌*◌, ◌+◌, ◌/◌, ◌<◌, ◌≤◌, ◌⊎◌, ◌↔◌, ℕ, List, None, Ok, Result, [], true, IfErr, IfNone, IfOk, IfSome, IsErr, OnErr, OnOk, length, max, vec_len, ◌++◌, ◌∷◌};
ghost use mathlib.Core.List.{IsPrefix};
ghost use Rattle.disk_model.specs.Disk.{LeavesOnly, MayLeave};
ghost use Rattle.export_model.specs.Log.{edit_asked};
ghost use Rattle.export_model.specs.OneLog.{IsOneLog};
ghost use Rattle.export_model.specs.Verdict.{verdict};
ghost use Rattle.export_model.specs.declared.action.Action.{Action};
ghost use Rattle.image_model.specs.Edit.{becomes, blocks_met};
ghost use Rattle.image_model.specs.Image.{apply_all};
ghost use Rattle.image_model.specs.declared.command.Kind.{Kind};
ghost use Rattle.marks.specs.Known.{known};
ghost use Rattle.nbd_wire.specs.declared.error.Errno.{Errno};
ghost use Rattle.order_book.specs.Order.{IsInHand, Seals, new_order, with_clean, with_durable, with_group};
ghost use Rattle.order_book.specs.Shown.{ShowsImage};
ghost use Rattle.request_core.specs.Outcomes.{IsServedBy, IsServedHere, NeedsDevice};
ghost use Rattle.request_core.specs.Reading.{IsPlanned, IsReadOverServed};
ghost use Rattle.request_core.specs.Serving.{IsClientServed, IsPassServed};
ghost use Rattle.order_book.specs.declared.fault.OrderFault.TheVariants as OrderFault;
ghost use Rattle.shared_store.specs.Keepers.{HasLeft};
ghost use Rattle.shared_store.specs.Answers.{ServesImage};
ghost use Rattle.shared_store.specs.Logs.{IsAt, IsLogOf};
ghost use Rattle.shared_store.specs.Orders.{Trusting};
ghost use Rattle.shared_store.specs.Parts.{StandsWithin};

use crate::group::SealedGroup;
use crate::keeper::SharedKeeper;
use crate::name::ImageName;
use checkpoint::Keeper;
use disk_model::Disk;
use marks::{Board, Pass, Roster, Trust};
use nbd_wire::{Request, RequestHead};
use order_book::{Order, OrderFault, Span};
use request_core::{NeedsKeeper, Served, Terms, serve_held, serve_read_over};
use std::alloc::Global;
use std::marker::Model;

/// The order of write commands, under one lock. Its history is the one history, and it shows the image of the opening after that
/// history.
pub struct SharedOrder<B: ImageName> {
    order: Order<B>,
}

// Written out, it is proved once, and not again in each function that lets an order go.
impl<B: ImageName> Drop for SharedOrder<B> {
    fn drop(self) {
        let SharedOrder { order: _ } = self;
    }
}

impl<B: ImageName> Model for SharedOrder<B> {
    ghost use Rattle.std.specs.Coded.{codes, coded_ℕ};
    ghost use Rattle.std.specs.Ordering.{nat_cmp};
    ghost use Rattle.std.specs.FinMap as map;
    ghost use Rattle.order_book.specs.Order.{OrderState};
    ghost use Rattle.shared_store.specs.Orders.{KeepsImage};

    ghost Value = { OrderState };

    ghost coded = { Prim.hlevel (codes, map.code {R = nat_cmp} coded_ℕ coded_ℕ) };

    ghost view = { λ shared. shared.order };

    ghost invariant = { λ shared. KeepsImage B.opening B.image B.vouches B.trusted shared.order };
}

impl<B: ImageName> SharedOrder<B> {
    /// The order of a device that was opened: nothing was accepted yet.
    pub fn new(order: Order<B>) -> SharedOrder<B>
        requires fresh { (states : List Kind) × (frames : ℕ) × (area : ℕ) × (length states ≡ B.image.blocks) × (order ≡ new_order states B.opening frames area) }
        requires shows { B.trusted → ShowsImage B.image order.cache }
        ensures { result ≡ order }
    {
        SharedOrder { order }
    }

    /// The order, to look at; its history is the one history.
    pub fn order(&self) -> &Order<B>
        ensures { result.now ≡ self.now }
    {
        &self.order
    }

    /// Refuses all commands from now on.
    pub fn stop(&mut self)
        ensures { self.new ≡ record self.old { stopped = true } }
    {
        self.order.stop();
    }

    /// Shows a pass the number of the last command that was accepted, and the history: memory shows the image after that.
    pub fn show<T: Trust>(&mut self, board: &Board<B, T>, pass: &mut Pass<B>) -> u64
        ensures mark { result ≡ self.old.mark }
        ensures place { result ≡ B.opening + length self.old.history }
        ensures same { self.new ≡ self.old }
        ensures known { known pass.old ≤ result }
        ensures knew { IsPrefix pass.old.history self.old.history }
        ensures pass { pass.new ≡ record pass.old { history = self.old.history; accepted = result } }
        ensures shows { Trusting B.opening B.image B.vouches B.trusted (ShowsImage (apply_all pass.new.history B.image) self.old.cache) }
    {
        self.order.show_mark(board, pass)
    }
}

impl<B: ImageName> SharedOrder<B> {
    /// Serves a request that isn't a DISC, if no keeper is needed.
    pub fn serve<T: Trust>(
        &mut self,
        alloc: Global,
        request: Request,
        board: &Board<B, T>,
        pass: &mut Pass<B>,
        terms: Terms,
    ) -> Result<Served, NeedsKeeper>
        requires kind { request.head.kind ≢ 2 }
        requires blocks { length self.old.cache.states ≡ terms.geometry.blocks }
        requires log { T.logs → IsLogOf B.opening B.image B.vouches B.trusted terms.mode T.trusted T.mode T.image }
        requires asked { T.logs → IsAt request pass.old.client }
        ensures blocks { length self.new.cache.states ≡ length self.old.cache.states }
        ensures noted { self.new.base ≡ self.old.base }
        ensures serves { IfOk result (λ served. IsServedHere (verdict request.head terms.geometry terms.flags) request terms.geometry terms.mode self.old self.new served) }
        ensures needs { IsErr result ↔ NeedsDevice (verdict request.head terms.geometry terms.flags) request self.old }
        ensures handed_back { IfErr result (λ back. back.0 ≡ request) }
        ensures unchanged { OnErr result ((self.new ≡ self.old) × (pass.new ≡ pass.old)) }
        ensures pass { IfOk result (λ served. IsPassServed B.opening request self.old.mark self.new.mark served pass.old pass.new) }
        ensures client { IfOk result (λ served. IsClientServed T.mode request self.old.mark self.new.mark served pass.old.client pass.new.client) }
        ensures shows { Trusting B.opening B.image B.vouches B.trusted (ShowsImage (apply_all self.old.history B.image) self.old.cache) }

        // Bytes and states are those of the image after the history. A command that was accepted is what the request's edit becomes
        // over the image after the history before it, and its pass knows both.
        ensures tells { IfOk result (λ served. Trusting B.opening B.image B.vouches B.trusted (ServesImage (apply_all self.new.history B.image) request.head served)) }
        ensures over { Trusting B.opening B.image B.vouches B.trusted (self.old.mark < self.new.mark
            → pass.new.history ≡ self.old.history ++ becomes (edit_asked request) (apply_all self.old.history B.image) ∷ []) }
    {
        serve_held(alloc, request, &mut self.order, board, pass, terms)
    }

    /// Serves a READ with bytes that were read before without a lock. If they aren't enough, they come back.
    ///
    /// It doesn't check that the bytes of blocks which aren't in memory are those of the base: what memory shows depends on that from
    /// then on.
    pub fn serve_over(
        &mut self,
        alloc: Global,
        head: &RequestHead,
        span: Span,
        bytes: Vec<u8>,
        terms: &Terms,
    ) -> Result<Served, Vec<u8>>
        requires planned { IsPlanned head.now terms.now.geometry terms.now.flags span }
        requires blocks { length self.old.cache.states ≡ terms.now.geometry.blocks }
        requires size { vec_len bytes ≡ 4096 * blocks_met head.now.offset head.now.length }
        requires vouched { ∥ B.vouches (record { first = head.now.offset / 4096; span = span; bytes = bytes.items; order = self.old }) ∥₁ }
        ensures read { IfOk result (λ served. IsReadOverServed head.now span bytes.items self.old self.new served) }
        ensures blocks { length self.new.cache.states ≡ length self.old.cache.states }
        ensures noted { self.new.base ≡ self.old.base }
        ensures stopped { self.old.stopped ≡ true → IsErr result }
        ensures size { IfErr result (λ back. vec_len back ≡ 4096 * blocks_met head.now.offset head.now.length) }
        ensures unchanged { OnErr result (self.new ≡ self.old) }
        ensures shows { Trusting B.opening B.image B.vouches B.trusted (ShowsImage (apply_all self.old.history B.image) self.old.cache) }
        ensures tells { IfOk result (λ served. Trusting B.opening B.image B.vouches B.trusted (ServesImage (apply_all self.new.history B.image) head.now served)) }
    {
        serve_read_over(alloc, head, &mut self.order, span, bytes, terms)
    }

    /// Serves a request that isn't a DISC, with the keeper.
    pub fn serve_with<D: Disk, T: Trust>(
        &mut self,
        alloc: Global,
        request: Request,
        keeper: &mut SharedKeeper<B, D>,
        board: &Board<B, T>,
        pass: &mut Pass<B>,
        terms: Terms,
    ) -> Served
        requires kind { request.head.kind ≢ 2 }
        requires blocks { length self.old.cache.states ≡ terms.geometry.blocks }
        requires device { terms.geometry ≡ keeper.old.keeper.geometry }
        requires log { T.logs → IsLogOf B.opening B.image B.vouches B.trusted terms.mode T.trusted T.mode T.image }
        requires asked { T.logs → IsAt request pass.old.client }
        ensures blocks { length self.new.cache.states ≡ length self.old.cache.states }
        ensures noted { self.new.base ≡ self.old.base }
        ensures geometry { keeper.new.keeper.geometry ≡ keeper.old.keeper.geometry }
        ensures count { keeper.new.keeper.count ≡ keeper.old.keeper.count }
        ensures serves { (given : Result Action Errno) × (given ≡ verdict request.head terms.geometry terms.flags)
            × IsServedBy D.state D.faults D.honest given request terms.geometry terms.mode self.old self.new keeper.old.keeper keeper.new.keeper result }
        ensures pass { IsPassServed B.opening request self.old.mark self.new.mark result pass.old pass.new }
        ensures client { IsClientServed T.mode request self.old.mark self.new.mark result pass.old.client pass.new.client }
        ensures tells { Trusting B.opening B.image B.vouches B.trusted (ServesImage (apply_all self.new.history B.image) request.head result) }
        ensures over { Trusting B.opening B.image B.vouches B.trusted (self.old.mark < self.new.mark
            → pass.new.history ≡ self.old.history ++ becomes (edit_asked request) (apply_all self.old.history B.image) ∷ []) }
        ensures any_moment { B.trusted → LeavesOnly (D.state keeper.old.keeper.disk) (D.state keeper.new.keeper.disk)
            (StandsWithin B.opening B.image self.old.history keeper.old.keeper.count) }
    {
        keeper.meet(board, &mut self.order);
        keeper.serve(alloc, request, &mut self.order, board, pass, terms)
    }
}

impl<B: ImageName> SharedOrder<B> {
    /// Takes the longest prefix of the pending commands that fits into a group, which stands in the history. Refusal 0 (no memory).
    pub fn seal<T: Trust>(
        &mut self,
        board: &Board<B, T>,
    ) -> Result<Option<SealedGroup<B>>, OrderFault>
        ensures group { IfOk result (λ sealed. IfSome sealed (λ group. Seals self.old self.new group.group × (group.told ≡ self.old.history))) }
        ensures in_hand { IfOk result (λ sealed. IfSome sealed (λ group. IsInHand self.new group.group)) }
        ensures none { (result ≡ Ok None) ↔ ((self.old.pending ≡ []) ⊎ (self.old.durable < self.old.sealed)) }
        ensures unchanged { IfOk result (λ sealed. IfNone sealed (self.new ≡ self.old)) }
        ensures fault { IfErr result (λ fault. fault ≡ OrderFault.NoMemory) }
        ensures err { OnErr result (self.new ≡ self.old) }
    {
        let Some(group) = self.order.seal()? else {
            return Ok(None);
        };
        let told = self.order.note(board);
        Ok(Some(SealedGroup::new(group, told)))
    }

    /// Makes a group pending again, the last that was sealed; another one comes back.
    pub fn put_back<T: Trust>(
        &mut self,
        board: &Board<B, T>,
        sealed: SealedGroup<B>,
    ) -> Result<(), SealedGroup<B>>
        ensures taken { OnOk result (IsInHand self.old sealed.group × (self.new ≡ with_group self.old sealed.group)) }
        ensures back { IfErr result (λ back. (back ≡ sealed) × (IsInHand self.old sealed.group → ⊥)) }
        ensures err { OnErr result (self.new ≡ self.old) }
    {
        let (group, told) = sealed.into_parts();
        if !self.order.is_in_hand(&group) {
            return Err(SealedGroup::new(group, told));
        }
        self.order.compare(board, told);
        self.order.put_back(group);
        Ok(())
    }

    /// Makes durable what the keeper has stored.
    pub fn publish<D: Disk, T: Trust>(
        &mut self,
        board: &Board<B, T>,
        keeper: &mut SharedKeeper<B, D>,
    )
        ensures order { self.new ≡ with_durable self.old keeper.old.keeper.count }
        ensures noted { self.new.base ≡ self.old.base }
        ensures keeper { keeper.new.keeper ≡ keeper.old.keeper }
    {
        keeper.publish(board, &mut self.order);
    }

    /// Shows keeper and pass the whole history, and returns the order's last number. A crash now leaves the image after a prefix of the
    /// history that has all that the pass knows to be durable.
    pub fn meet_all<D: Disk, T: Trust>(
        &mut self,
        board: &Board<B, T>,
        keeper: &mut SharedKeeper<B, D>,
        pass: &mut Pass<B>,
    ) -> u64
        ensures mark { result ≡ self.old.mark }
        ensures order { self.new ≡ self.old }
        ensures keeper { keeper.new.keeper ≡ keeper.old.keeper }
        ensures history { pass.new.history ≡ self.old.history }
        ensures knew { IsPrefix pass.old.history pass.new.history }
        ensures pass { pass.new ≡ record pass.old { history = self.old.history; accepted = self.old.mark } }
        ensures place { self.old.mark ≡ B.opening + length self.old.history }
        ensures left { B.trusted → (content : List ℕ) → MayLeave (D.state keeper.old.keeper.disk) content
            → StandsWithin B.opening B.image pass.new.history pass.old.durable content }
        ensures passed { B.trusted → HasLeft B.start (D.state keeper.old.keeper.disk) B.opening B.image pass.new.history }
        ensures honest { B.trusted → D.honest keeper.old.keeper.disk }
    {
        keeper.meet_pass(board, pass);
        keeper.meet(board, &mut self.order);
        self.order.show_mark(board, pass)
    }

    /// Makes those dirty blocks clean that map and data hold: their frames may be taken again.
    pub fn clean<D: Disk, T: Trust>(&mut self, board: &Board<B, T>, keeper: &mut SharedKeeper<B, D>)
        ensures order { self.new ≡ with_clean (record self.old { base = max self.old.base keeper.old.keeper.base }) keeper.old.keeper.base }
        ensures noted { self.new.base ≡ keeper.old.keeper.base }
        ensures keeper { keeper.new.keeper ≡ keeper.old.keeper }
    {
        keeper.meet(board, &mut self.order);
        keeper.tell_base(board, &mut self.order);
        self.order.clean(keeper.keeper());
    }
}

impl<B: ImageName> SharedOrder<B> {
    /// Closes the board, which takes back the seats of order and keeper; the keeper is as it was. If there was a log, it agrees with the
    /// order's history, and a crash of a trusted device leaves all that the log covers.
    pub fn close<D: Disk, T: Trust>(
        self,
        board: Board<B, T>,
        keeper: SharedKeeper<B, D>,
        roster: Roster<B>,
    ) -> Keeper<D>
        ensures keeper { result ≡ keeper.keeper }
        ensures log { T.logs → (durable : ℕ) × IsOneLog T.trusted T.mode T.image self.history durable roster
            × (B.trusted → (content : List ℕ) → MayLeave (D.state keeper.keeper.disk) content → StandsWithin B.opening B.image self.history (B.opening + durable) content) }
    {
        let SharedOrder { mut order } = self;
        let mut keeper = keeper;
        keeper.meet(&board, &mut order);
        let (keeper, seat) = keeper.into_parts();
        board.close(order.into_seat(), seat, roster);
        keeper
    }
}
