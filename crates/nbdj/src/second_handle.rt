use crate::server_log::{ServerLog, Topic};
use crate::watched_file::WatchedFile;
use disk_model::DeviceFault;
use export::{ExportName, NotedBase, ReadUnlocked};
use image_files::begin_reading;
use image_model::Geometry;
use order_book::{Order, Span};
use std::fs::File;
use std::os::unix::fs::FileExt;
use std::rt::Clock;
use std::sync::Wait;

// The proofs alone use its value, by which they tell what a handle gave: see `export/specs/Unlocked.antt`.
enum Seal {
    Whole,
}

/// A second handle of a device's file, whose reads that fail are told.
#[derive(Drop)]
pub struct SecondHandle<'a, R: Wait + Clock> {
    pub file: WatchedFile<'a, File, R>,
    pub log: ServerLog<'a, R>,
}

impl<'a, R: Wait + Clock> ReadUnlocked for SecondHandle<'a, R> {
    ghost use Rattle.export.specs.Unlocked.{Gave, Vouched};
    ghost use Rattle.nbdj.specs.declared.second_handle.Seal.{Seal};

    // What its reads gave. That this is what the file holds is a premise.
    ghost gives = { λ handle asked offset bytes. Gave Seal handle asked offset bytes };

    ghost vouches = { λ handle read. Vouched Seal handle read };

    fn read_unlocked(
        &self,
        _asked: NotedBase,
        offset: u64,
        into: &mut [u8],
    ) -> Result<(), DeviceFault> {
        match self.file.read_exact_at(into, offset) {
            Ok(()) => Ok(()),
            Err(error) => {
                let count = into.len();
                self.log.tell(
                    Topic::Unread,
                    format_args!("read of {count} bytes at {offset}: {error}"),
                );
                Err(DeviceFault)
            }
        }
    }

    fn prefetch(&self, offset: u64, length: u64) {
        begin_reading(&self.file.file, offset, length);
    }

    fn vouch<B: ExportName>(
        &self,
        _geometry: &Geometry,
        _first: u64,
        _span: Span,
        _bytes: &[u8],
        _asked: NotedBase,
        _order: &Order<B>,
    ) -> bool {
        true
    }
}
