ghost use Rattle.std.specs.Prelude.{◌≡◌, ◌+◌, ◌≤◌, ◌<◌, ◌^◌, length, IfOk};
ghost use Rattle.disk_model.specs.Faults.{faults_after};

use disk_model::{DeviceFault, Disk};
use std::alloc::{AllocError, Global};

// A byte of a device: what a read gives, whether it was written since the last good sync, and whether a call failed since.
#[derive(Clone, Copy)]
struct Place {
    byte: u8,
    unsynced: bool,
    loose: bool,
}

/// A device in memory, which lets one call fail and then gives other bytes than were written wherever the disk model says
/// that it may: at each place that is unsynced when a write or a sync fails, also where it is written anew, until a sync
/// is good. What reads give then stays.
///
/// Nothing is claimed of its content.
#[derive(Drop)]
pub struct ScramblingDisk {
    places: Vec<Place>,
    unsynced: Vec<usize>,
    // What is changed of a byte, bit by bit.
    scrambles: u8,
    fails_in: u64,
    failures: u64,
    ghost size_fits: { length places.items < 2 ^ 64 },
    ghost failures_fit: { failures < 2 ^ 64 },
}

// Puts the bytes at `offset`, and notes which places are unsynced now; a loose place takes another byte.
fn put(
    places: &mut Vec<Place>,
    unsynced: &mut Vec<usize>,
    offset: usize,
    bytes: &[u8],
    scrambles: u8,
) -> Result<(), AllocError>
    requires { offset + length bytes.now ≤ length places.old.items }
    ensures { length places.new.items ≡ length places.old.items }
{
    for (index, byte) in bytes.iter().enumerate() {
        let place = &mut places[offset + index];
        let kept = if place.loose { scrambles } else { 0 };
        place.byte = *byte ^ kept;
        if !place.unsynced {
            place.unsynced = true;
            unsynced.push(offset + index)?;
        }
    }
    Ok(())
}

// Changes each byte that is unsynced and wasn't changed yet.
fn scramble(places: &mut Vec<Place>, unsynced: &[usize], scrambles: u8)
    ensures { length places.new.items ≡ length places.old.items }
{
    for index in unsynced {
        if let Some(place) = places.get_mut(*index)
            && !place.loose
        {
            place.loose = true;
            place.byte ^= scrambles;
        }
    }
}

// Makes each byte stay as it is.
fn settle(places: &mut Vec<Place>, unsynced: &mut Vec<usize>)
    ensures { length places.new.items ≡ length places.old.items }
{
    while let Some(index) = unsynced.pop() {
        if let Some(place) = places.get_mut(index) {
            place.unsynced = false;
            place.loose = false;
        }
    }
}

// What a call answers that fails or not, with a fault counted.
fn answer(fails: bool, failures: &mut u64) -> Result<(), DeviceFault>
    ensures { failures.new ≡ faults_after result failures.old }
{
    if fails {
        *failures = failures.saturating_add(1);
        return Err(DeviceFault);
    }
    Ok(())
}

// Counts a call. Whether it fails.
fn is_due(fails_in: &mut u64) -> bool {
    let due = *fails_in == 1;
    *fails_in = fails_in.saturating_sub(1);
    due
}

impl ScramblingDisk {
    /// A device of zero bytes. Of a byte that is made unreliable these bits are turned.
    pub fn new(alloc: Global, size: u64, scrambles: u8) -> Result<ScramblingDisk, AllocError>
        ensures { IfOk result (λ disk. ⟦<ScramblingDisk as Disk>⟧.extent disk ≡ size) }
    {
        let place = Place {
            byte: 0,
            unsynced: false,
            loose: false,
        };
        Ok(ScramblingDisk {
            places: vec![in alloc; place; size as usize]?,
            unsynced: Vec::new(alloc),
            scrambles,
            fails_in: 0,
            failures: 0,
        })
    }

    /// Lets the `k`-th coming write or sync fail.
    pub fn fail(&mut self, k: u64)
        ensures { ⟦<ScramblingDisk as Disk>⟧.extent self.new ≡ ⟦<ScramblingDisk as Disk>⟧.extent self.old }
    {
        self.fails_in = k;
    }
}

impl Disk for ScramblingDisk {
    ghost use Rattle.storage_tests.specs.Scrambling.{unknown};
    ghost use Rattle.std.specs.Prelude.{length};

    ghost extent = { λ disk. length disk.places.items };

    ghost faults = { λ disk. disk.failures };

    // Nothing is claimed of its content.
    ghost honest = { λ disk. ⊥ };

    ghost state = { λ disk. unknown };

    fn size(&self) -> u64 {
        self.places.len() as u64
    }

    fn read(&mut self, offset: u64, into: &mut [u8]) -> Result<(), DeviceFault> {
        for (index, byte) in into.iter_mut().enumerate() {
            *byte = self.places[offset as usize + index].byte;
        }
        answer(false, &mut self.failures)
    }

    fn write_at(&mut self, offset: u64, from: &[u8]) -> Result<(), DeviceFault> {
        let written = put(
            &mut self.places,
            &mut self.unsynced,
            offset as usize,
            from,
            self.scrambles,
        );
        let fails = is_due(&mut self.fails_in) || written.is_err();
        if fails {
            scramble(&mut self.places, &self.unsynced, self.scrambles);
        }
        answer(fails, &mut self.failures)
    }

    fn sync(&mut self) -> Result<(), DeviceFault> {
        let fails = is_due(&mut self.fails_in);
        if fails {
            scramble(&mut self.places, &self.unsynced, self.scrambles);
        } else {
            settle(&mut self.places, &mut self.unsynced);
        }
        answer(fails, &mut self.failures)
    }

    fn failures(&self) -> u64 {
        self.failures
    }

    ghost extent_fits = { λ disk. disk.size_fits };

    ghost faults_fit = { λ disk. disk.failures_fit };

    ghost sound = { λ disk honest. absurd honest };
}
