ghost use Rattle.std.specs.Prelude.{◌≡◌, ◌+◌, ◌*◌, ◌<◌, ◌^◌};
ghost use Rattle.image_model.specs.Edit.{count_of, edit_of, kind_edited, offset_of};

use crate::command::Kind;
use crate::geometry::BLOCK_BYTES;

/// A write command in bytes, as a client asks for it.
#[derive(Drop)]
pub enum Edit {
    /// Writes these bytes from `offset` on. Each block that they touch becomes data.
    Put {
        offset: u64,
        bytes: Vec<u8>,
    },
    /// Makes `length` bytes zero. A block that they touch takes this kind, which isn't data; a data block that they cover in
    /// part stays data.
    Zeroes {
        offset: u64,
        length: u32,
        kind: Kind,
    },
    /// Makes holes of the blocks that lie wholly within `length` bytes. All else stays.
    Trim {
        offset: u64,
        length: u32,
    },
}

impl Edit {
    /// The first byte of the image that it covers.
    pub fn offset(&self) -> u64
        ensures { result ≡ offset_of (edit_of self.now) }
    {
        match self {
            Edit::Put { offset, .. } | Edit::Zeroes { offset, .. } | Edit::Trim { offset, .. } =>
                *offset,
        }
    }

    /// How many bytes it covers.
    pub fn length(&self) -> u64
        ensures { result ≡ count_of (edit_of self.now) }
    {
        match self {
            Edit::Put { offset: _, bytes } => bytes.len() as u64,
            Edit::Zeroes { length, .. } | Edit::Trim { length, .. } => *length as u64,
        }
    }

    /// The state that it gives to a block of this state.
    pub fn kind_after(&self, block: u64, kind: Kind) -> Kind
        requires inside { offset_of (edit_of self.now) + count_of (edit_of self.now) < 2 ^ 64 }
        requires block_inside { 4096 * block + 4096 < 2 ^ 64 }
        ensures { result ≡ kind_edited (edit_of self.now) block kind }
    {
        let start = BLOCK_BYTES * block;
        let end = start + BLOCK_BYTES;
        let from = self.offset();
        let to = from + self.length();
        let spans = from <= start && end <= to;
        let meets = from.max(start) < to.min(end);
        match self {
            Edit::Put { .. } if meets => Kind::Data,
            Edit::Zeroes { kind: cleared, .. } if meets && (kind != Kind::Data || spans) =>
                *cleared,
            Edit::Trim { .. } if spans => Kind::Hole,
            _ => kind,
        }
    }
}
