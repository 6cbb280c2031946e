use disk_model::MAX_PIECE;
use std::os::fd::AsRawFd;

// The bytes of a page of the system's cache.
const PAGE: u64 = 4_096;

const TWO_PAGES: usize = 8_192;

const PIECE: u64 = MAX_PIECE as u64;

/// Has the system begin to write these bytes of a file to the disk, and doesn't wait until they are written: the next sync has less to
/// write. If the system refuses, that sync writes them. Nothing that the file holds changes.
pub(crate) fn begin_writing<F: AsRawFd>(file: &F, offset: u64, bytes: usize) {
    let end = offset.saturating_add(bytes as u64);
    for page in (offset..end).step_by(TWO_PAGES) {
        begin_writing_around(file, page.saturating_add(PAGE));
    }
}

/// The same for the pieces of a long write, each of `MAX_PIECE` bytes, which come in ascending order: one call for two pieces.
///
/// It rests on large folios: Linux caches a piece in one folio, unless smaller writes have filled its cache before, and it writes a folio
/// whole. Without large folios two pages of sixteen are begun. What isn't begun, such as a last piece that is alone, is left to the sync.
pub(crate) fn begin_writing_pieces<F: AsRawFd>(file: &F, offset: u64) {
    if offset % (2 * PIECE) == PIECE {
        begin_writing_around(file, offset);
    }
}

// The same for the page that ends at this multiple of `PAGE`, and the next page.
//
// Linux begins to write the dirty pages of a range of which it is told that it isn't needed. Then it drops the pages that are named as a
// whole from its cache, for which it may have to wait for all processors. So a call names the last byte of a page and the first one of the
// next: Linux writes both and drops none.
fn begin_writing_around<F: AsRawFd>(file: &F, edge: u64) {
    if let Ok(last) = i64::try_from(edge.saturating_sub(1)) {
        let _ = libc::posix_fadvise(file.as_raw_fd(), last, 2, libc::POSIX_FADV_DONTNEED);
    }
}
