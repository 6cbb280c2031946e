//! What a file or a block device holds before an image is made there.

use crate::files::header_of;
use header_slots::SLOT_BYTES;
use std::fmt::{self, Display, Formatter};
use std::fs::File;
use std::os::unix::fs::FileExt;

/// What is there already.
#[derive(Clone, Copy, PartialEq, Eq)]
pub enum Content {
    /// A file of this many bytes.
    Bytes(u64),
    /// What some bytes of a block device are known for.
    Known(&'static str),
}

impl Content {
    /// What a file of this length holds.
    pub(crate) fn from_length(length: u64) -> Option<Content> {
        if length == 0 {
            return None;
        }
        Some(Content::Bytes(length))
    }
}

impl Display for Content {
    fn fmt<W: fmt::Write>(&self, f: &mut Formatter<W>) -> fmt::Result {
        match self {
            Content::Bytes(count) => write!(f, "{count} bytes"),
            Content::Known(name) => f.write_str(name),
        }
    }
}

// Bytes at an offset by which something is known.
struct Signature {
    offset: u64,
    bytes: &'static [u8],
    name: &'static str,
}

// The longest signature.
const LONGEST: usize = 10;

static SIGNATURES: [Signature; 15] = [
    Signature {
        offset: 0,
        bytes: b"QFI\xfb",
        name: "a qcow2 image",
    },
    Signature {
        offset: 0,
        bytes: b"XFSB",
        name: "an XFS file system",
    },
    Signature {
        offset: 0,
        bytes: b"LUKS\xba\xbe",
        name: "a LUKS volume",
    },
    Signature {
        offset: 0,
        bytes: b"LABELONE",
        name: "an LVM physical volume",
    },
    Signature {
        offset: 512,
        bytes: b"LABELONE",
        name: "an LVM physical volume",
    },
    Signature {
        offset: 1024,
        bytes: b"LABELONE",
        name: "an LVM physical volume",
    },
    Signature {
        offset: 1536,
        bytes: b"LABELONE",
        name: "an LVM physical volume",
    },
    Signature {
        offset: 512,
        bytes: b"EFI PART",
        name: "a partition table",
    },
    Signature {
        offset: 4096,
        bytes: b"EFI PART",
        name: "a partition table",
    },
    Signature {
        offset: 1080,
        bytes: b"\x53\xef",
        name: "an ext2, ext3 or ext4 file system",
    },
    Signature {
        offset: 4086,
        bytes: b"SWAPSPACE2",
        name: "swap space",
    },
    Signature {
        offset: 4096,
        bytes: b"\xfc\x4e\x2b\xa9",
        name: "a member of a RAID",
    },
    Signature {
        offset: 32769,
        bytes: b"CD001",
        name: "an ISO 9660 file system",
    },
    Signature {
        offset: 65600,
        bytes: b"_BHRfS_M",
        name: "a Btrfs file system",
    },
    // (also at the end of the first sector of some file systems, which are told above)
    Signature {
        offset: 510,
        bytes: b"\x55\xaa",
        name: "a partition table",
    },
];

// What begins the header of an image, after its gate; the last byte is the layout.
const MAGIC: &[u8; 7] = b"NBDJRNL";

/// Whether one of the header slots of a file has an image's magic, whether the header is in force or not.
pub fn has_magic(file: &File) -> bool {
    let mut found = [0; 7];
    for slot in [0, SLOT_BYTES] {
        if file.read_exact_at(&mut found, slot + 1).is_ok() && found == *MAGIC {
            return true;
        }
    }
    false
}

/// What is known of the bytes of a block device.
pub(crate) fn content_of(device: File) -> (File, Option<Content>) {
    // An image leaves signatures between its bytes as they were.
    let (device, header) = header_of(device);
    if header.is_some() {
        return (device, Some(Content::Known("an image of nbdj")));
    }
    for signature in &SIGNATURES {
        if has(&device, signature) {
            return (device, Some(Content::Known(signature.name)));
        }
    }
    (device, None)
}

fn has(device: &File, signature: &Signature) -> bool {
    let mut found = [0; LONGEST];
    let Some(place) = found.get_mut(..signature.bytes.len()) else {
        return false;
    };
    // A shorter device has none there.
    device.read_exact_at(place, signature.offset).is_ok() && *place == *signature.bytes
}
