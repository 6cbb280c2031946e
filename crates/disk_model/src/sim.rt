ghost use Rattle.std.specs.Prelude.{◌≡◌, ◌≤◌, ◌<◌, ◌+◌, ◌^◌, ◌⊎◌, ℕ, [], length, reverse, ◌&&◌, slice_index, replicate, false, not, is_ok, IfOk, IsErr, OnOk, OnErr, IsTrue};
ghost use Rattle.disk_model.specs.Faults.{faults_after};
ghost use Rattle.disk_model.specs.Disk.{IsFound, MayLeave, MayLeaveTorn, IsKept, IsWritten, IsWriteFailed, IsSynced, IsSyncFailed, LeavesOnly};
ghost use Rattle.disk_model.specs.FaultPlan.{armed, is_due, after_call, no_faults};
ghost use Rattle.disk_model.specs.History.{IsInside, IsLeftBy, state_of};
ghost use Rattle.disk_model.specs.HistoryLaws.{sound_state};

use crate::disk::{DeviceFault, Disk};
use crate::fault_plan::{CallKind, FaultPlan};
use crate::faults::outcome;
use crate::history::{CrashChoice, Entry, crash_bytes, note_sync, put};
use std::alloc::{AllocError, Global};

/// A device in memory that keeps to the disk model. Its calls can be made to fail, and it can crash.
///
/// It keeps a record of its writes and syncs since the last crash, with the bytes that each write replaced. A write or
/// a sync for which the record can't grow is a fault, and changes nothing. No other call takes memory. A write that is
/// made to fail writes its bytes nevertheless: reads give them, and they are unsynced.
pub struct SimDisk {
    alloc: Global,
    bytes: Vec<u8>,
    history: Vec<Entry>,
    plan: FaultPlan,
    failures: u64,
    ghost size_fits: { length bytes.items < 2 ^ 64 },
    ghost failures_fit: { failures < 2 ^ 64 },
    ghost are_bytes: { (place : ℕ) → slice_index bytes.items place < 256 },
    ghost inside: { IsInside history.items (length bytes.items) },
}

// Written out, it is proved once, and not again in each function that lets a device go.
impl Drop for SimDisk {
    fn drop(self) {
        let SimDisk {
            alloc: _,
            bytes: _,
            history: _,
            plan: _,
            failures: _,
        } = self;
    }
}

// What a write answers that came out so, where a fault was due or not.
fn settled(stored: Result<(), AllocError>, due: bool) -> Result<(), DeviceFault>
    ensures { is_ok result ≡ (is_ok stored && not due) }
{
    match stored {
        Ok(()) if !due => Ok(()),
        _ => Err(DeviceFault),
    }
}

impl SimDisk {
    ghost use Rattle.disk_model.specs.SimDisk.{seen_bytes, synced_bytes, unsynced_at, history_of, plan_of, with_plan, state_now};

    /// A device of `size` zero bytes, with nothing armed. Refusal 0 (no memory).
    pub fn new(alloc: Global, size: u64) -> Result<SimDisk, AllocError>
        ensures extent { IfOk result (λ disk. ⟦<SimDisk as Disk>⟧.extent disk ≡ size) }
        ensures faults { IfOk result (λ disk. ⟦<SimDisk as Disk>⟧.faults disk ≡ 0) }
        ensures seen { IfOk result (λ disk. seen_bytes disk ≡ replicate size 0) }
        ensures history { IfOk result (λ disk. history_of disk ≡ []) }
        ensures plan { IfOk result (λ disk. plan_of disk ≡ no_faults) }
    {
        let bytes = vec![in alloc; 0; size as usize]?;
        Ok(SimDisk {
            alloc,
            bytes,
            history: Vec::new(alloc),
            plan: FaultPlan::new(),
            failures: 0,
        })
    }

    /// Lets the `k`-th call of a kind from now on fail; the next one is the first. It takes the place of an earlier
    /// one of that kind that wasn't met. With `k` 0 none fails.
    pub fn fail(&mut self, kind: CallKind, k: u64)
        ensures { self.new ≡ with_plan self.old (armed kind k (plan_of self.old)) }
    {
        self.plan.fail(kind, k);
    }

    /// Stops the device at the `k`-th call of any kind from now on: that call and all later ones fail, until a crash.
    /// It takes the place of an earlier stop that wasn't met. With `k` 0 there is none. A call that is stopped counts
    /// for [`SimDisk::fail`] too.
    pub fn stop_at(&mut self, k: u64)
        ensures { self.new ≡ with_plan self.old (record (plan_of self.old) { stop = k }) }
    {
        self.plan.stop_at(k);
    }

    /// Whether a stop was met and no crash came since.
    pub fn is_stopped(&self) -> bool
        ensures { result ≡ (plan_of self.now).stopped }
    {
        self.plan.is_stopped()
    }

    /// Crashes the device: each unsynced byte becomes what was chosen, and all bytes are synced. The record begins anew.
    /// What is armed and wasn't met stays armed. It goes through what was written since the last good sync, and no
    /// further.
    pub fn crash(&mut self, choice: CrashChoice)
        ensures extent { ⟦<SimDisk as Disk>⟧.extent self.new ≡ ⟦<SimDisk as Disk>⟧.extent self.old }
        ensures faults { ⟦<SimDisk as Disk>⟧.faults self.new ≡ ⟦<SimDisk as Disk>⟧.faults self.old }
        ensures left { IsLeftBy choice (unsynced_at self.old) (synced_bytes self.old) (seen_bytes self.old) (seen_bytes self.new) }
        ensures allowed { MayLeave (state_now self.old) (seen_bytes self.new) }
        ensures found { IsFound (seen_bytes self.new) (state_now self.new) }
        ensures history { history_of self.new ≡ [] }
        ensures plan { plan_of self.new ≡ record (plan_of self.old) { stopped = false } }
    {
        crash_bytes(&mut self.bytes, &mut self.history, choice);
        self.history.clear();
        self.plan.restart();
    }

    /// Makes it a device that was found with the bytes of `from`: all of them are synced, nothing is armed, and no call
    /// has failed. It takes no memory.
    pub fn restore(&mut self, from: &SimDisk)
        requires { ⟦<SimDisk as Disk>⟧.extent from.now ≡ ⟦<SimDisk as Disk>⟧.extent self.old }
        ensures extent { ⟦<SimDisk as Disk>⟧.extent self.new ≡ ⟦<SimDisk as Disk>⟧.extent self.old }
        ensures faults { ⟦<SimDisk as Disk>⟧.faults self.new ≡ 0 }
        ensures seen { seen_bytes self.new ≡ seen_bytes from.now }
        ensures found { IsFound (seen_bytes from.now) (state_now self.new) }
        ensures history { history_of self.new ≡ [] }
        ensures plan { plan_of self.new ≡ no_faults }
    {
        self.bytes.copy_from_slice(&from.bytes);
        self.history.clear();
        self.plan = FaultPlan::new();
        self.failures = 0;
    }
}

impl Disk for SimDisk {
    ghost use Rattle.disk_model.specs.SimDisk.{seen_bytes, plan_of, state_now, IsUnchanged, IsApplied, IsStable, IsRecordFull};

    ghost extent = { λ disk. length disk.bytes.items };

    ghost faults = { λ disk. disk.failures };

    ghost honest = { λ disk. Unit {0} };

    ghost state = { λ disk. state_of (reverse disk.history.items) disk.bytes.items };

    fn size(&self) -> u64 {
        self.bytes.len() as u64
    }

    fn read(&mut self, offset: u64, into: &mut [u8]) -> Result<(), DeviceFault>
        requires { offset + length into.old ≤ length (seen_bytes self.old) }
        ensures extent { length (seen_bytes self.new) ≡ length (seen_bytes self.old) }
        ensures faults { ⟦<SimDisk as Disk>⟧.faults self.new ≡ faults_after result (⟦<SimDisk as Disk>⟧.faults self.old) }
        ensures bytes { OnOk result
            ((k : ℕ) → k < length into.new → slice_index into.new k ≡ slice_index (seen_bytes self.new) (offset + k)) }
        ensures kept { IsKept (state_now self.old) (state_now self.new) }
        ensures any_moment { LeavesOnly (state_now self.old) (state_now self.new) (MayLeave (state_now self.old)) }

        // It fails exactly where a fault is due, and nothing has changed but the plan and the count.
        ensures fails { is_ok result ≡ not (is_due CallKind.Read (plan_of self.old)) }
        ensures unchanged { IsUnchanged self.old self.new }
        ensures plan { plan_of self.new ≡ after_call CallKind.Read (plan_of self.old) }
    {
        let due = self.plan.count_call(CallKind::Read);
        let from = offset as usize;
        into.copy_from_slice(&self.bytes[from..from + into.len()]);
        outcome(settled(Ok(()), due), &mut self.failures)
    }

    fn write_at(&mut self, offset: u64, from: &[u8]) -> Result<(), DeviceFault>
        requires { offset + length from.now ≤ length (seen_bytes self.old) }
        ensures extent { length (seen_bytes self.new) ≡ length (seen_bytes self.old) }
        ensures faults { ⟦<SimDisk as Disk>⟧.faults self.new ≡ faults_after result (⟦<SimDisk as Disk>⟧.faults self.old) }
        ensures written { OnOk result (IsWritten (state_now self.old) offset from.now (state_now self.new)) }
        ensures failed { OnErr result (IsWriteFailed (state_now self.old) offset (length from.now) (state_now self.new)) }
        ensures any_moment { LeavesOnly (state_now self.old) (state_now self.new)
            (MayLeaveTorn (state_now self.old) offset (length from.now)) }

        // It fails where a fault is due, and else where the record can't grow, which no contract can say: so the clauses
        // let it fail at any time. One that fails where a fault is due is applied or leaves nothing, and the body applies
        // it wherever the record can grow; one that fails where none is due leaves nothing.
        ensures fails { IsTrue (is_due CallKind.Write (plan_of self.old)) → IsErr result }
        ensures applied { OnOk result (IsApplied self.old offset from.now self.new) }
        ensures err { OnErr result (IsUnchanged self.old self.new
            ⊎ (IsTrue (is_due CallKind.Write (plan_of self.old)) × IsApplied self.old offset from.now self.new)) }
        ensures plan { plan_of self.new ≡ after_call CallKind.Write (plan_of self.old) }
    {
        let due = self.plan.count_call(CallKind::Write);
        let stored = put(
            self.alloc,
            &mut self.bytes,
            &mut self.history,
            offset as usize,
            from,
        );
        outcome(settled(stored, due), &mut self.failures)
    }

    fn sync(&mut self) -> Result<(), DeviceFault>
        ensures extent { length (seen_bytes self.new) ≡ length (seen_bytes self.old) }
        ensures faults { ⟦<SimDisk as Disk>⟧.faults self.new ≡ faults_after result (⟦<SimDisk as Disk>⟧.faults self.old) }
        ensures synced { OnOk result (IsSynced (state_now self.old) (state_now self.new)) }
        ensures failed { OnErr result (IsSyncFailed (state_now self.old) (state_now self.new)) }
        ensures any_moment { LeavesOnly (state_now self.old) (state_now self.new) (MayLeave (state_now self.old)) }

        // It fails where a fault is due, and else only where the record would have to grow and can't.
        ensures fails { IsTrue (is_due CallKind.Sync (plan_of self.old)) → IsErr result }
        ensures stable { OnOk result (IsStable self.old self.new) }
        ensures err { OnErr result (IsUnchanged self.old self.new) }
        ensures no_room { OnErr result (IsTrue (is_due CallKind.Sync (plan_of self.old)) ⊎ IsRecordFull self.old) }
        ensures plan { plan_of self.new ≡ after_call CallKind.Sync (plan_of self.old) }
    {
        let due = self.plan.count_call(CallKind::Sync);
        outcome(note_sync(&mut self.history, due), &mut self.failures)
    }

    fn failures(&self) -> u64 {
        self.failures
    }

    ghost extent_fits = { λ disk. disk.size_fits };

    ghost faults_fit = { λ disk. disk.failures_fit };

    ghost sound = { λ disk honest. sound_state (reverse disk.history.items) disk.bytes.items disk.are_bytes };
}
