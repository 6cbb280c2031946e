//! A file in memory, which several handles share, and a handle whose reads are held.
use disk_model::DeviceFault;
use export::{ExportName, NotedBase, ReadUnlocked};
use image_model::Geometry;
use order_book::{Order, Span};
use std::fs::{Metadata, OpenFile};
use std::io::{self, ErrorKind};
use std::os::unix::fs::FileExt;
use std::rt::Clock;
use std::sync::atomic::{AtomicU64, Ordering};
use std::sync::{Mutex, Wait};
use std::thread;
use std::time::Duration;

/// A handle of a file in memory.
#[derive(Drop)]
pub struct MemoryFile<'a, R: Wait> {
    pub rt: &'a R,
    pub bytes: &'a Mutex<Vec<u8>>,
}

impl<'a, R: Wait> FileExt for MemoryFile<'a, R> {
    fn read_at(&self, buf: &mut [u8], offset: u64) -> io::Result<usize> {
        let guard = self.bytes.lock(self.rt);
        let bytes = guard.as_slice();
        let from = bytes.len().min(offset as usize);
        let count = buf.len().min(bytes.len() - from);
        buf[..count].copy_from_slice(&bytes[from..from + count]);
        Ok(count)
    }

    fn write_at(&self, buf: &[u8], offset: u64) -> io::Result<usize> {
        let mut guard = self.bytes.lock(self.rt);
        let bytes = guard.as_mut_slice();
        let from = bytes.len().min(offset as usize);
        let count = buf.len().min(bytes.len() - from);
        bytes[from..from + count].copy_from_slice(&buf[..count]);
        Ok(count)
    }
}

impl<'a, R: Wait> OpenFile for MemoryFile<'a, R> {
    fn metadata(&self) -> io::Result<Metadata> {
        Err(io::Error::from(ErrorKind::Unsupported))
    }

    fn set_len(&self, _size: u64) -> io::Result<()> {
        Err(io::Error::from(ErrorKind::Unsupported))
    }

    fn sync_all(&self) -> io::Result<()> {
        Ok(())
    }

    fn sync_data(&self) -> io::Result<()> {
        Ok(())
    }
}

/// Stops the reads of a handle. Each field is the number of a turn, from 1 on.
#[derive(Drop)]
pub struct Latch {
    // That in which the next read is to be held; 0 for none.
    wanted: AtomicU64,
    // The last in which one was held, and the last in which it went on.
    held: AtomicU64,
    released: AtomicU64,
}

impl Latch {
    pub fn new() -> Latch {
        Latch {
            wanted: AtomicU64::new(0),
            held: AtomicU64::new(0),
            released: AtomicU64::new(0),
        }
    }

    /// Has the next read held once it has its bytes.
    pub fn hold(&self, turn: u64) {
        self.wanted.store(turn, Ordering::SeqCst);
    }

    /// Waits until a read is held, or the turn's READ is answered with none held, at most ten seconds; whether one is held.
    pub fn wait_held<R: Clock>(&self, rt: &R, turn: u64, answered: &AtomicU64) -> bool {
        for _ in 0..20_000 {
            if self.held.load(Ordering::SeqCst) >= turn {
                return true;
            }
            if answered.load(Ordering::SeqCst) >= turn {
                return false;
            }
            thread::sleep(rt, Duration::from_micros(500));
        }
        false
    }

    /// Lets the read go on.
    pub fn release(&self, turn: u64) {
        self.released.store(turn, Ordering::SeqCst);
    }
}

/// Waits until a number has come to a turn, at most ten seconds; whether it has.
pub fn wait_for_turn<R: Clock>(rt: &R, number: &AtomicU64, turn: u64) -> bool {
    for _ in 0..20_000 {
        if number.load(Ordering::SeqCst) >= turn {
            return true;
        }
        thread::sleep(rt, Duration::from_micros(500));
    }
    false
}

// The proofs alone use its value, by which they tell what a handle gave.
enum Seal {
    Whole,
}

/// A handle of a file in memory whose reads are held, with the bytes that they have got.
#[derive(Drop)]
pub struct HeldHandle<'a, R: Wait + Clock> {
    pub file: MemoryFile<'a, R>,
    pub latch: &'a Latch,
}

impl<'a, R: Wait + Clock> ReadUnlocked for HeldHandle<'a, R> {
    ghost use Rattle.export.specs.Unlocked.{Gave, Vouched};
    ghost use Rattle.export_tests.specs.declared.memory_file.Seal.{Seal};

    ghost gives = { λ handle asked offset bytes. Gave Seal handle asked offset bytes };

    ghost vouches = { λ handle read. Vouched Seal handle read };

    fn read_unlocked(
        &self,
        _asked: NotedBase,
        offset: u64,
        into: &mut [u8],
    ) -> Result<(), DeviceFault> {
        let Ok(()) = self.file.read_exact_at(into, offset) else {
            return Err(DeviceFault);
        };
        let turn = self.latch.wanted.swap(0, Ordering::SeqCst);
        if turn != 0 {
            self.latch.held.store(turn, Ordering::SeqCst);
            let _goes_on = wait_for_turn(self.file.rt, &self.latch.released, turn);
        }
        Ok(())
    }

    fn vouch<B: ExportName>(
        &self,
        _geometry: &Geometry,
        _first: u64,
        _span: Span,
        _bytes: &[u8],
        _asked: NotedBase,
        _order: &Order<B>,
    ) -> bool {
        true
    }
}
