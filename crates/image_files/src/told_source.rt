//! How far a transfer is.

ghost use Rattle.std.specs.Prelude.{◌≡◌, ◌↔◌};

use crate::progress::{Progress, Work};
use image_transfer::{Source, SourceFault};

// The blocks in 1 MiB.
const MIB_BLOCKS: u64 = 256;

/// A source of which is told how far it has been read.
#[derive(Drop)]
pub struct ToldSource<S: Source + Drop> {
    source: S,
    progress: Progress,
    // The blocks that are read or passed over, and how many there are.
    done: u64,
    count: u64,
}

impl<S: Source + Drop> ToldSource<S> {
    /// Of a source of which this many blocks are read.
    pub fn new(rt: &HostRuntime, source: S, count: u64) -> ToldSource<S>
        ensures block { ⟦<ToldSource<S> as Source>⟧.block result ≡ S.block source }
        ensures byte { ⟦<ToldSource<S> as Source>⟧.byte result ≡ S.byte source }
        ensures honest { ⟦<ToldSource<S> as Source>⟧.honest result ↔ S.honest source }
    {
        ToldSource {
            source,
            progress: Progress::new(rt, Work::Transfer),
            done: 0,
            count,
        }
    }

    /// Ends the bar, if one was shown.
    pub fn finish(&self) {
        if self.progress.is_told() {
            self.progress.finish(self.count.div_ceil(MIB_BLOCKS));
        }
    }

    fn note(&mut self, blocks: u64)
        ensures { self.new.source ≡ self.old.source }
    {
        self.done = self.done.saturating_add(blocks);
        self.progress
            .show(self.done / MIB_BLOCKS, self.count.div_ceil(MIB_BLOCKS));
    }
}

impl<S: Source + Drop> Source for ToldSource<S> {
    ghost byte = { λ told. S.byte told.source };

    ghost block = { λ told. S.block told.source };

    ghost honest = { λ told. S.honest told.source };

    fn pass_zeroes(&mut self, most: u64) -> Result<u64, SourceFault> {
        let passed = self.source.pass_zeroes(most)?;
        self.note(passed);
        Ok(passed)
    }

    fn read(&mut self, into: &mut [u8]) -> Result<(), SourceFault> {
        self.source.read(into)?;
        self.note(into.len() as u64 / 4096);
        Ok(())
    }
}
