ghost use Rattle.std.specs.Prelude.{◌≡◌, ◌+◌, ◌≤◌, ◌<◌, ◌-◌, ◌⊎◌, ℕ, [], ◌∷◌, ◌++◌, length, reverse, slice_index, replicate, OnOk, OnErr, IfSome, IfNone, IsTrue, false, vec_capacity, vec_len};
ghost use Rattle.disk_model.specs.declared.history.Entry.TheVariants.{Written, Synced};
ghost use Rattle.disk_model.specs.History.{patched, IsInside, unsynced_by, synced_content, IsLeftBy};
ghost use Rattle.disk_model.specs.inner.History.{IsPut};

use crate::disk::DeviceFault;
use std::alloc::{AllocError, Global};

/// A write, and what it wrote over.
#[derive(Drop)]
pub struct Write {
    pub offset: usize,
    pub before: Vec<u8>,
}

/// What a crash leaves at each unsynced byte of a simulated device.
#[derive(Clone, Copy, PartialEq, Eq)]
pub enum CrashChoice {
    /// This byte.
    Fill(u8),
    /// What the last good sync left.
    Old,
    /// What was written last, also by a write that failed.
    New,
}

/// What a simulated device did.
#[derive(Drop)]
pub enum Entry {
    Written(Write),
    Synced,
}

// Puts the bytes at `offset`.
fn overwrite(bytes: &mut Vec<u8>, offset: usize, from: &[u8])
    requires { offset + length from.now ≤ length bytes.old.items }
    ensures { bytes.new.items ≡ patched bytes.old.items offset from.now }
{
    bytes[offset..offset + from.len()].copy_from_slice(from);
}

// Puts one byte at `count` places from `offset` on.
fn fill(bytes: &mut Vec<u8>, offset: usize, count: usize, byte: u8)
    requires { offset + count ≤ length bytes.old.items }
    ensures { bytes.new.items ≡ patched bytes.old.items offset (replicate count byte) }
{
    bytes[offset..offset + count].fill(byte);
}

/// Notes a good sync, unless a fault is due. At `Err` nothing has changed.
pub fn note_sync(history: &mut Vec<Entry>, due: bool) -> Result<(), DeviceFault>
    ensures not_due { OnOk result (due ≡ false) }
    ensures noted { OnOk result (history.new.items ≡ history.old.items ++ Synced ∷ []) }
    ensures same { OnErr result (history.new.items ≡ history.old.items) }
    ensures no_room { OnErr result (IsTrue due ⊎ (vec_capacity history.old ≤ vec_len history.old)) }
{
    if due {
        return Err(DeviceFault);
    }
    match history.push(Entry::Synced) {
        Ok(()) => Ok(()),
        Err(_) => Err(DeviceFault),
    }
}

/// Writes the bytes at `offset` and notes what stood there. At `Err` nothing has changed.
pub fn put(
    alloc: Global,
    bytes: &mut Vec<u8>,
    history: &mut Vec<Entry>,
    offset: usize,
    from: &[u8],
) -> Result<(), AllocError>
    requires { offset + length from.now ≤ length bytes.old.items }
    ensures put { OnOk result (IsPut history.old.items bytes.old.items offset from.now history.new.items bytes.new.items) }
    ensures same_bytes { OnErr result (bytes.new.items ≡ bytes.old.items) }
    ensures same_history { OnErr result (history.new.items ≡ history.old.items) }
    ensures are_bytes { (place : ℕ) → slice_index bytes.new.items place < 256 }
{
    let before = bytes[offset..offset + from.len()].to_vec(alloc)?;
    history.push(Entry::Written(Write { offset, before }))?;
    overwrite(bytes, offset, from);
    Ok(())
}

/// Takes the newest write since the last good sync from the history; where there is none, what is taken is no write.
pub fn pop_write(history: &mut Vec<Entry>) -> Option<Write>
    ensures newest { IfSome result (λ write. history.old.items ≡ history.new.items ++ Written write ∷ []) }
    ensures none { IfNone result ((place : ℕ) → unsynced_by (reverse history.old.items) place → ⊥) }
    ensures synced { IfNone result ((content : _) → synced_content (reverse history.old.items) content ≡ content) }
{
    match history.pop()? {
        Entry::Written(write) => Some(write),
        Entry::Synced => None,
    }
}

/// Takes back the writes since the last good sync, the newest first.
pub fn roll_back(bytes: &mut Vec<u8>, history: &mut Vec<Entry>)
    requires { IsInside history.old.items (length bytes.old.items) }
    ensures content { bytes.new.items ≡ synced_content (reverse history.old.items) bytes.old.items }
    ensures others { (place : ℕ) → (unsynced_by (reverse history.old.items) place → ⊥)
        → slice_index bytes.new.items place ≡ slice_index bytes.old.items place }
    ensures size { length bytes.new.items ≡ length bytes.old.items }
{
    while let Some(write) = pop_write(history) {
        overwrite(bytes, write.offset, &write.before);
    }
}

/// Puts one byte at each place that was written since the last good sync.
pub fn fill_unsynced(bytes: &mut Vec<u8>, history: &mut Vec<Entry>, byte: u8)
    requires { IsInside history.old.items (length bytes.old.items) }
    ensures filled { (place : ℕ) → unsynced_by (reverse history.old.items) place → slice_index bytes.new.items place ≡ byte }
    ensures others { (place : ℕ) → (unsynced_by (reverse history.old.items) place → ⊥)
        → slice_index bytes.new.items place ≡ slice_index bytes.old.items place }
    ensures size { length bytes.new.items ≡ length bytes.old.items }
{
    while let Some(write) = pop_write(history) {
        fill(bytes, write.offset, write.before.len(), byte);
    }
}

/// Makes of the bytes what a crash leaves. Of the history nothing is said after it.
pub fn crash_bytes(bytes: &mut Vec<u8>, history: &mut Vec<Entry>, choice: CrashChoice)
    requires { IsInside history.old.items (length bytes.old.items) }
    ensures left { IsLeftBy choice (unsynced_by (reverse history.old.items)) (synced_content (reverse history.old.items) bytes.old.items)
        bytes.old.items bytes.new.items }
    ensures others { (place : ℕ) → (unsynced_by (reverse history.old.items) place → ⊥)
        → slice_index bytes.new.items place ≡ slice_index bytes.old.items place }
    ensures size { length bytes.new.items ≡ length bytes.old.items }
    ensures are_bytes { (place : ℕ) → slice_index bytes.new.items place < 256 }
{
    match choice {
        CrashChoice::Fill(byte) => fill_unsynced(bytes, history, byte),
        CrashChoice::Old => roll_back(bytes, history),
        CrashChoice::New => {}
    }
}
