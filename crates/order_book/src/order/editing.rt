ghost use Rattle.std.specs.Prelude.{◌≡◌, ◌≢◌, ◌+◌, ◌*◌, ◌<◌, ◌≤◌, ◌/◌, ◌↔◌, List, length, true, false, None, IsErrAnd, IfErr, IfOk, IsTrue, OnErr, OnOk};
ghost use mathlib.Core.List.{IsPrefix};
ghost use Rattle.device_image.specs.Holds.{Holds, joined};
ghost use Rattle.image_model.specs.Change.{Change};
ghost use Rattle.journal_format.specs.Reading.{IsOnlyRead};
ghost use Rattle.marks.specs.Client.{HasAsked, accepting};
ghost use Rattle.marks.specs.Known.{known};
ghost use Rattle.image_model.specs.Edit.{IsEdit, becomes, count_of, edit_of, offset_of};
ghost use Rattle.image_model.specs.Image.{Image, apply_all};
ghost use Rattle.order_book.specs.Edits.{HasAskedEdit, IsKnownBy, NeedsDevice, TakesEdit, faults_after, image_in, image_with, keeper_after};
ghost use Rattle.order_book.specs.inner.Edits.{IsWholePut, whole_change};
ghost use Rattle.order_book.specs.Reading.{IsCleanAt};
ghost use Rattle.order_book.specs.Shown.{ShowsImage};
ghost use Rattle.order_book.specs.Order.{IsNumbered, has_room_for, refusal_for};

use super::{MOST_BACKLOG_BYTES, Order};
use crate::edits::{
    ZERO_BLOCK, body_for, command_for, from_keeper_fault, has_frames_for, is_whole_put, lacks_old,
    put_again, read_old, whole_put,
};
use crate::fault::OrderFault;
use checkpoint::Keeper;
use disk_model::Disk;
use image_model::Edit;
use marks::{Board, BoardName, Pass, Trust};

// Edits in bytes, each of which an order takes as the command that it becomes over all that was accepted.
impl<B: BoardName> Order<B> {
    /// Whether an edit needs old bytes that aren't in memory, and nothing else refuses it before they are read: whether
    /// `accept_edit` is to be called, and not `accept_in_memory`.
    pub fn needs_device(&self, edit: &Edit) -> bool
        requires edit { IsEdit (length self.now.cache.states) (edit_of edit.now) }
        requires few { length self.now.cache.states ≤ 16777216 }
        ensures { IsTrue result ↔ NeedsDevice self.now (edit_of edit.now) }
    {
        lacks_old(&self.cache, edit) && self.edit_refusal(edit).is_none()
    }

    // Why an edit is refused before any growth, and before the device is read.
    fn edit_refusal(&self, edit: &Edit) -> Option<OrderFault>
        requires edit { IsEdit (length self.now.cache.states) (edit_of edit.now) }
        requires few { length self.now.cache.states ≤ 16777216 }
        ensures { result ≡ refusal_for self.now (becomes (edit_of edit.now) (image_in self.now.cache)) }
    {
        if self.is_stopped() {
            return Some(OrderFault::Stopped);
        }
        if self.mark() == u64::MAX {
            return Some(OrderFault::NumbersFull);
        }
        if self.has_room_for(edit) {
            return None;
        }
        Some(OrderFault::NoRoom)
    }

    fn has_room_for(&self, edit: &Edit) -> bool
        requires edit { IsEdit (length self.now.cache.states) (edit_of edit.now) }
        requires few { length self.now.cache.states ≤ 16777216 }
        ensures { result ≡ has_room_for self.now (becomes (edit_of edit.now) (image_in self.now.cache)) }
    {
        has_frames_for(&self.cache, edit)
            && self.backlog.total() + body_for(&self.cache, edit) <= MOST_BACKLOG_BYTES
    }

    /// Does what `accept_edit` does for an edit whose old bytes, if it needs any, are in memory. The bytes of a put of whole blocks
    /// become those of its command, and aren't copied.
    ///
    /// Refusals 18 (stopped), 9 (numbers full), 17 (no room), 0 (no memory), in this order.
    pub fn accept_in_memory<T: Trust>(
        &mut self,
        board: &Board<B, T>,
        pass: &mut Pass<B>,
        edit: Edit,
    ) -> Result<u64, (OrderFault, Edit)>
        requires edit { IsEdit (length self.old.cache.states) (edit_of edit) }
        requires few { length self.old.cache.states ≤ 16777216 }
        requires held { NeedsDevice self.old (edit_of edit) → ⊥ }
        requires asked { T.logs → HasAskedEdit T.trusted T.image self.old (edit_of edit) pass.old.client }
        ensures number { IfOk result (λ number. number ≡ self.old.mark + 1) }
        ensures taken { (image : Image) → ShowsImage image self.old.cache
            → OnOk result (TakesEdit (edit_of edit) image self.old self.new pass.old pass.new) }
        ensures blocks { length self.new.cache.states ≡ length self.old.cache.states }
        ensures numbers { IsNumbered self.old }
        ensures place { self.old.mark ≡ B.opening + length self.old.history }
        ensures handed_back { IfErr result (λ refused. refused.1 ≡ edit) }
        ensures unchanged { OnErr result (self.new ≡ self.old) }
        ensures known { IfOk result (λ number. known pass.old < number) }
        ensures knew { OnOk result (IsPrefix pass.old.history self.old.history) }
        ensures client { IfOk result (λ number. pass.new.client ≡ accepting T.mode number pass.old.client) }
        ensures pass_unchanged { OnErr result (pass.new ≡ pass.old) }

        // Each refusal comes exactly where it is due and none before it is.
        ensures stopped { IsErrAnd result (λ refused. refused.0 ≡ OrderFault.Stopped) ↔ (self.old.stopped ≡ true) }
        ensures numbers_full { IsErrAnd result (λ refused. refused.0 ≡ OrderFault.NumbersFull)
            ↔ ((self.old.stopped ≡ false) × (self.old.mark ≡ 18446744073709551615)) }
        ensures no_room { IsErrAnd result (λ refused. refused.0 ≡ OrderFault.NoRoom)
            ↔ ((self.old.stopped ≡ false) × (self.old.mark < 18446744073709551615)
            × (has_room_for self.old (becomes (edit_of edit) (image_in self.old.cache)) ≡ false)) }
        ensures no_device { IfErr result (λ refused. (refused.0 ≢ OrderFault.DeviceFault) × (refused.0 ≢ OrderFault.Failed)) }
    {
        let _mark = self.mark();
        if let Some(fault) = self.edit_refusal(&edit) {
            return Err((fault, edit));
        }
        self.take_edit(board, pass, edit, &ZERO_BLOCK, &ZERO_BLOCK)
    }

    // Takes an edit that nothing but memory refuses, where of the blocks that are missing its first one has the bytes `head`, and
    // another one the bytes `tail`.
    fn take_edit<T: Trust>(
        &mut self,
        board: &Board<B, T>,
        pass: &mut Pass<B>,
        edit: Edit,
        head: &[u8],
        tail: &[u8],
    ) -> Result<u64, (OrderFault, Edit)>
        requires edit { IsEdit (length self.old.cache.states) (edit_of edit) }
        requires few { length self.old.cache.states ≤ 16777216 }
        requires head { length head.now ≡ 4096 }
        requires tail { length tail.now ≡ 4096 }
        requires free { refusal_for self.old (becomes (edit_of edit) (image_in self.old.cache)) ≡ None }
        requires asked { T.logs → HasAsked T.trusted T.image self.old.history
            (becomes (edit_of edit) (image_with self.old.cache (offset_of (edit_of edit) / 4096) head.now tail.now)) pass.old.client }
        ensures number { IfOk result (λ number. number ≡ self.old.mark + 1) }
        ensures taken { OnOk result (TakesEdit (edit_of edit) (image_with self.old.cache (offset_of (edit_of edit) / 4096) head.now tail.now)
            self.old self.new pass.old pass.new) }
        ensures blocks { length self.new.cache.states ≡ length self.old.cache.states }
        ensures handed_back { IfErr result (λ refused. refused.1 ≡ edit) }
        ensures unchanged { OnErr result (self.new ≡ self.old) }
        ensures known { IfOk result (λ number. known pass.old < number) }
        ensures knew { OnOk result (IsPrefix pass.old.history self.old.history) }
        ensures client { IfOk result (λ number. pass.new.client ≡ accepting T.mode number pass.old.client) }
        ensures pass_unchanged { OnErr result (pass.new ≡ pass.old) }
        ensures memory { IfErr result (λ refused. refused.0 ≡ OrderFault.NoMemory) }
    {
        if is_whole_put(&edit) {
            return self.take_whole_put(board, pass, edit);
        }
        let made = command_for(self.pending.allocator(), &self.cache, &edit, head, tail);
        let Ok(command) = made else {
            return Err((OrderFault::NoMemory, edit));
        };
        match self.take(board, pass, command) {
            Ok(number) => Ok(number),
            Err((fault, _)) => Err((fault, edit)),
        }
    }

    // Takes a put of whole blocks, whose bytes become those of the command.
    fn take_whole_put<T: Trust>(
        &mut self,
        board: &Board<B, T>,
        pass: &mut Pass<B>,
        edit: Edit,
    ) -> Result<u64, (OrderFault, Edit)>
        requires edit { IsEdit (length self.old.cache.states) (edit_of edit) }
        requires few { length self.old.cache.states ≤ 16777216 }
        requires whole { IsWholePut (edit_of edit) }
        requires free { refusal_for self.old (whole_change (edit_of edit)) ≡ None }
        requires asked { T.logs → HasAsked T.trusted T.image self.old.history (whole_change (edit_of edit)) pass.old.client }
        ensures number { IfOk result (λ number. number ≡ self.old.mark + 1) }
        ensures taken { (image : Image) → OnOk result (TakesEdit (edit_of edit) image self.old self.new pass.old pass.new) }
        ensures blocks { length self.new.cache.states ≡ length self.old.cache.states }
        ensures handed_back { IfErr result (λ refused. refused.1 ≡ edit) }
        ensures unchanged { OnErr result (self.new ≡ self.old) }
        ensures known { IfOk result (λ number. known pass.old < number) }
        ensures knew { OnOk result (IsPrefix pass.old.history self.old.history) }
        ensures client { IfOk result (λ number. pass.new.client ≡ accepting T.mode number pass.old.client) }
        ensures pass_unchanged { OnErr result (pass.new ≡ pass.old) }
        ensures memory { IfErr result (λ refused. refused.0 ≡ OrderFault.NoMemory) }
    {
        let offset = edit.offset();
        match self.take(board, pass, whole_put(edit)) {
            Ok(number) => Ok(number),
            Err((fault, command)) => Err((fault, put_again(offset, command))),
        }
    }

    /// Accepts an edit as the last command, for a pass: it raises the board to the command's number, and returns that. A refusal
    /// hands the edit back. The command is what the edit becomes over all that was accepted. If the edit puts or zeroes a block in
    /// part, the other bytes are those of its frame, or zero if it isn't data, or are read from the data region and not kept in
    /// memory. Edits of whole blocks and trims need no old bytes.
    ///
    /// The refusals, in the order in which they are looked for: 18 (stopped), 9 (numbers full), 17 (no room), 0 (no memory);
    /// then 1 (device fault), or 16 (failed) after an earlier one, if a block is to be read; memory may run out after that too.
    pub fn accept_edit<D: Disk, T: Trust>(
        &mut self,
        keeper: &mut Keeper<D>,
        board: &Board<B, T>,
        pass: &mut Pass<B>,
        edit: Edit,
    ) -> Result<u64, (OrderFault, Edit)>
        requires edit { IsEdit (length self.old.cache.states) (edit_of edit) }
        requires few { length self.old.cache.states ≤ 16777216 }
        requires device { offset_of (edit_of edit) + count_of (edit_of edit) ≤ 4096 * keeper.old.geometry.blocks }
        requires asked { T.logs → HasAskedEdit T.trusted T.image self.old (edit_of edit) pass.old.client }
        requires known { T.logs → T.trusted → keeper.old.failed ≡ false → IsKnownBy D.state D.honest keeper.old self.old (apply_all self.old.history T.image) }
        ensures number { IfOk result (λ number. number ≡ self.old.mark + 1) }

        // The command is what the edit becomes over an image that memory shows: over each of them where the device isn't needed, and
        // else over the one that has the base's bytes where a block is missing.
        ensures taken { OnOk result ((image : Image) × ShowsImage image self.old.cache × TakesEdit (edit_of edit) image self.old self.new pass.old pass.new) }
        ensures held { (NeedsDevice self.old (edit_of edit) → ⊥) → (image : Image) → ShowsImage image self.old.cache
            → OnOk result (TakesEdit (edit_of edit) image self.old self.new pass.old pass.new) }
        ensures image { D.honest keeper.old.disk → (base image : Image) (fronts : List (List Change)) (last : List Change) → Holds keeper.old (D.state keeper.old.disk) base fronts last
            → ShowsImage image self.old.cache → IsCleanAt base (joined fronts) image self.old.dirty
            → OnOk result (TakesEdit (edit_of edit) image self.old self.new pass.old pass.new) }
        ensures blocks { length self.new.cache.states ≡ length self.old.cache.states }
        ensures numbers { IsNumbered self.old }
        ensures place { self.old.mark ≡ B.opening + length self.old.history }
        ensures handed_back { IfErr result (λ refused. refused.1 ≡ edit) }
        ensures unchanged { OnErr result (self.new ≡ self.old) }
        ensures known { IfOk result (λ number. known pass.old < number) }
        ensures knew { OnOk result (IsPrefix pass.old.history self.old.history) }
        ensures client { IfOk result (λ number. pass.new.client ≡ accepting T.mode number pass.old.client) }
        ensures pass_unchanged { OnErr result (pass.new ≡ pass.old) }

        // Each refusal comes exactly where it is due and none before it is.
        ensures stopped { IsErrAnd result (λ refused. refused.0 ≡ OrderFault.Stopped) ↔ (self.old.stopped ≡ true) }
        ensures numbers_full { IsErrAnd result (λ refused. refused.0 ≡ OrderFault.NumbersFull)
            ↔ ((self.old.stopped ≡ false) × (self.old.mark ≡ 18446744073709551615)) }
        ensures no_room { IsErrAnd result (λ refused. refused.0 ≡ OrderFault.NoRoom)
            ↔ ((self.old.stopped ≡ false) × (self.old.mark < 18446744073709551615)
            × (has_room_for self.old (becomes (edit_of edit) (image_in self.old.cache)) ≡ false)) }
        ensures device_fault { IsErrAnd result (λ refused. refused.0 ≡ OrderFault.DeviceFault) → NeedsDevice self.old (edit_of edit) }
        ensures failed { IsErrAnd result (λ refused. refused.0 ≡ OrderFault.Failed) ↔ (IsTrue keeper.old.failed × NeedsDevice self.old (edit_of edit)) }

        // The device is read alone, and only where old bytes are missing; the keeper holds what it held.
        ensures hit { (NeedsDevice self.old (edit_of edit) → ⊥) → keeper.new ≡ keeper.old }
        ensures keeper_ok { OnOk result (keeper.new ≡ record keeper.old { disk = keeper.new.disk }) }
        ensures keeper_err { IfErr result (λ refused. keeper.new ≡ keeper_after refused.0 keeper.old keeper.new.disk) }
        ensures extent { D.extent keeper.new.disk ≡ D.extent keeper.old.disk }
        ensures faults_ok { OnOk result (D.faults keeper.new.disk ≡ D.faults keeper.old.disk) }
        ensures faults_err { IfErr result (λ refused. D.faults keeper.new.disk ≡ faults_after refused.0 (D.faults keeper.old.disk)) }
        ensures honest { D.honest keeper.new.disk ↔ D.honest keeper.old.disk }
        ensures only_read { D.honest keeper.old.disk → IsOnlyRead (D.state keeper.old.disk) (D.state keeper.new.disk) }
        ensures holds { D.honest keeper.old.disk → (base : Image) (fronts : List (List Change)) (last : List Change) → Holds keeper.old (D.state keeper.old.disk) base fronts last
            → (IsErrAnd result (λ refused. refused.0 ≡ OrderFault.DeviceFault) → ⊥) → Holds keeper.new (D.state keeper.new.disk) base fronts last }
    {
        let _mark = self.mark();
        if !self.needs_device(&edit) {
            return self.accept_in_memory(board, pass, edit);
        }
        let mut head = ZERO_BLOCK;
        let mut tail = ZERO_BLOCK;
        match read_old(&self.cache, keeper, &edit, &mut head, &mut tail) {
            Ok(()) => self.take_edit(board, pass, edit, &head, &tail),
            Err(fault) => Err((from_keeper_fault(fault), edit)),
        }
    }
}
