ghost use Rattle.std.specs.Prelude.{◌≡◌, ◌^◌, ◌<◌, ◌+◌, length, refl};

use crate::disk::{DeviceFault, Disk};
use crate::faults::outcome;
use std::fs::OpenFile;
use std::io;
use std::os::unix::fs::FileExt;

/// The most bytes of one write of the system: 32 KiB. Linux caches a file in folios as large as the writes that filled it, and a later
/// write of one block takes longer in a large folio.
pub const MAX_PIECE: usize = 32768;

/// Writes the bytes at `offset` in pieces that end at multiples of `MAX_PIECE`.
fn write_pieces<F: FileExt>(file: &F, offset: u64, from: &[u8]) -> io::Result<()>
    requires { offset + length from.now < 2 ^ 64 }
{
    let first = MAX_PIECE - (offset % MAX_PIECE as u64) as usize;
    if from.len() <= first {
        return file.write_all_at(from, offset);
    }
    let (head, rest) = from.split_at(first);
    file.write_all_at(head, offset)?;
    let mut at = offset + first as u64;
    for piece in rest.chunks(MAX_PIECE) {
        file.write_all_at(piece, at)?;
        at = at.saturating_add(piece.len() as u64);
    }
    Ok(())
}

// The proofs alone use its value, which other crates can't name: see `specs/FileCall.antt`.
enum Seal {
    Whole,
}

/// A device over the first bytes of a file. Short reads and writes are finished. A read that the system does whole is one call of it, a
/// write one for each piece of 32 KiB, and a sync brings the data to the drive (`fdatasync`).
///
/// `honest` says that the file keeps to the disk model. No proof can support that: it is a premise of each clause on
/// content. A read past the end of a shorter file is a fault.
#[derive(Drop)]
pub struct FileDisk<F: FileExt + OpenFile> {
    file: F,
    size: u64,
    failures: u64,
    // In the proofs the state of a file is a function of the device's value, so each call has to change it.
    calls: u64,
    ghost size_fits: { size < 2 ^ 64 },
    ghost failures_fit: { failures < 2 ^ 64 },
}

impl<F: FileExt + OpenFile> FileDisk<F> {
    ghost use Rattle.disk_model.specs.FileDisk.{file_of};

    /// A device of `size` bytes.
    pub fn new(file: F, size: u64) -> FileDisk<F>
        ensures extent { ⟦<FileDisk<F> as Disk>⟧.extent result ≡ size }
        ensures faults { ⟦<FileDisk<F> as Disk>⟧.faults result ≡ 0 }
        ensures file { file_of result ≡ file }
    {
        FileDisk {
            file,
            size,
            failures: 0,
            calls: 0,
        }
    }

    /// The file, after the device is no longer needed.
    pub fn into_file(self) -> F
    where
        F: Drop,
        ensures { result ≡ file_of self }
    {
        let FileDisk { file, .. } = self;
        file
    }
}

impl<F: FileExt + OpenFile> Disk for FileDisk<F> {
    ghost use Rattle.disk_model.specs.FileDisk.{KeepsToModel, state_at};

    ghost extent = { λ disk. disk.size };

    ghost faults = { λ disk. disk.failures };

    ghost honest = { λ disk. KeepsToModel disk.file disk.size };

    ghost state = { λ disk. state_at disk };

    fn size(&self) -> u64 {
        self.size
    }

    fn read(&mut self, offset: u64, into: &mut [u8]) -> Result<(), DeviceFault> {
        self.calls = self.calls.wrapping_add(1);
        outcome(self.file.read_exact_at(into, offset), &mut self.failures)
    }

    fn write_at(&mut self, offset: u64, from: &[u8]) -> Result<(), DeviceFault> {
        self.calls = self.calls.wrapping_add(1);
        outcome(write_pieces(&self.file, offset, from), &mut self.failures)
    }

    fn sync(&mut self) -> Result<(), DeviceFault> {
        self.calls = self.calls.wrapping_add(1);
        outcome(self.file.sync_data(), &mut self.failures)
    }

    fn failures(&self) -> u64 {
        self.failures
    }

    ghost extent_fits = { λ disk. disk.size_fits };

    ghost faults_fit = { λ disk. disk.failures_fit };

    ghost sound = { λ disk honest. honest.sound disk refl refl };
}
