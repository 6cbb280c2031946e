//! The standard streams, kept apart from the files that the program works on.

use std::fs::{self, File, Metadata, OpenOptions};
use std::io;
use std::os::fd::AsRawFd;
use std::os::unix::fs::MetadataExt;

// The greatest descriptor of a standard stream.
const LAST_STREAM: i32 = 2;

/// What stands in the place of standard streams that were closed. As long as it is kept no file that is opened gets the
/// descriptor of a stream, and so nothing that is printed can land in it.
#[derive(Drop)]
pub struct ClosedStreams {
    _places: [Option<File>; 3],
}

impl ClosedStreams {
    /// Takes the descriptors 0, 1 and 2 where they are free. To be called before any other file is opened.
    pub fn fill(rt: &HostRuntime) -> io::Result<ClosedStreams> {
        let mut places = [None, None, None];
        for place in &mut places {
            let file = open_nothing(rt)?;
            if file.as_raw_fd() > LAST_STREAM {
                break;
            }
            *place = Some(file);
        }
        Ok(ClosedStreams { _places: places })
    }
}

// A file of which nothing is read and in which nothing is kept; where the system has none, one that can't be written.
fn open_nothing(rt: &HostRuntime) -> io::Result<File> {
    OpenOptions::new()
        .read(true)
        .write(true)
        .open(rt, "/dev/null")
        .or_else(|_| fs::open(rt, "/"))
}

// Whether what is written to a stream, which its path names, goes into this file, as far as the system tells.
pub(crate) fn goes_into(rt: &HostRuntime, stream: &str, file: &Metadata) -> bool {
    match fs::metadata(rt, stream) {
        Ok(written) => written.dev() == file.dev() && written.ino() == file.ino(),
        Err(_) => false,
    }
}
