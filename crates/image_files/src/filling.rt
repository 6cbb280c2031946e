//! Files whose blocks are there before they are wanted.

use crate::progress::Progress;
use std::io;
use std::os::unix::fs::FileExt;

// The bytes of one write: as many as those of an image, because Linux caches a file in folios as large as the writes that filled it, and
// a later write of one block takes longer in a large one.
const PIECE: usize = 32_768;

static ZEROES: [u8; PIECE] = [0; PIECE];

// The pieces in 1 MiB.
const TOLD: u64 = 32;

/// Writes `size` zeroes at an offset of a file.
pub(crate) fn fill<F: FileExt>(
    file: &F,
    offset: u64,
    size: u64,
    progress: &Progress,
) -> io::Result<()> {
    let pieces = size.div_ceil(PIECE as u64);
    for piece in 0..pieces {
        let done = piece.saturating_mul(PIECE as u64);
        let count = size.saturating_sub(done).min(PIECE as u64) as usize;
        file.write_all_at(
            ZEROES.get(..count).unwrap_or(&[]),
            offset.saturating_add(done),
        )?;
        if piece % TOLD == 0 {
            progress.show(piece / TOLD, pieces.div_ceil(TOLD));
        }
    }
    progress.finish(pieces.div_ceil(TOLD));
    Ok(())
}
