//! Reads that the system is told of before they are made.
use std::os::fd::AsRawFd;

/// Has the system begin to read these bytes of a file into its cache, and doesn't wait until they are there. If it refuses, the read
/// itself brings them.
pub fn begin_reading<F: AsRawFd>(file: &F, offset: u64, bytes: u64) {
    if let (Ok(from), Ok(count)) = (i64::try_from(offset), i64::try_from(bytes)) {
        let _ = libc::posix_fadvise(file.as_raw_fd(), from, count, libc::POSIX_FADV_WILLNEED);
    }
}
