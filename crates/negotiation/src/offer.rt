ghost use Rattle.std.specs.Prelude.{◌≡◌, ◌≤◌, ◌<◌, IfOk, MatchOption, length};
ghost use Rattle.std.specs.Str.{bytes_eq};
ghost use Rattle.negotiation.specs.Answered.{offered};

use image_model::{BLOCK_BYTES, Geometry};
use option_wire::Text;
use std::alloc::{AllocError, Global};
use std::marker::Model;

/// The most bytes that the name of an export may have ("Values" of NBD's `proto.md`).
pub const MAX_EXPORT_NAME: usize = 4_096;

/// The name of an export, of at most 4,096 bytes.
#[derive(Clone, Copy)]
pub struct OfferedName<'a> {
    bytes: &'a [u8],
    ghost short: { length bytes.now ≤ 4096 },
}

impl<'a> OfferedName<'a> {
    /// The name of these bytes; none if there are too many.
    pub fn new(bytes: &'a [u8]) -> Option<OfferedName<'a>>
        ensures { MatchOption result (4096 < length bytes.now) (λ name. name.bytes.now ≡ bytes.now) }
    {
        if bytes.len() > MAX_EXPORT_NAME {
            return None;
        }
        Some(OfferedName { bytes })
    }
}

/// The export that a session offers: its size, its name, and whether FLUSH and FUA are offered.
#[derive(Drop)]
pub struct OfferedExport {
    size: u64,
    name: Text,
    flushes: bool,
}

impl Model for OfferedExport {
    ghost use Rattle.std.specs.Prelude.{◌≤◌, length};
    ghost use Rattle.negotiation.specs.Answered.{Offer};

    ghost Value = { Offer };

    ghost view = { λ offer. record { size = offer.size; name = offer.name; flushes = offer.flushes } };

    ghost invariant = { λ offer. length offer.name ≤ 4096 };
}

impl OfferedExport {
    /// An export of this geometry and name. Refusal 0 (no memory).
    pub fn new(
        alloc: Global,
        geometry: Geometry,
        name: OfferedName<'_>,
        flushes: bool,
    ) -> Result<OfferedExport, AllocError>
        ensures { IfOk result (λ offer. offer ≡ offered geometry name.entry.bytes.now flushes) }
    {
        Ok(OfferedExport {
            size: geometry.blocks * BLOCK_BYTES,
            name: Text::from_slice(alloc, name.bytes)?,
            flushes,
        })
    }

    /// Its bytes.
    pub fn size(&self) -> u64
        ensures { result ≡ self.now.size }
    {
        self.size
    }

    /// Whether FLUSH and FUA are offered.
    pub fn flushes(&self) -> bool
        ensures { result ≡ self.now.flushes }
    {
        self.flushes
    }

    /// Its name.
    pub fn name(&self) -> &[u8]
        ensures name { result.now ≡ self.now.name }
        ensures short { length result.now ≤ 4096 }
    {
        self.name.as_bytes()
    }

    /// Whether a client that asks for this name asks for this export.
    pub fn is_named(&self, name: &[u8]) -> bool
        ensures { result ≡ bytes_eq name.now self.now.name }
    {
        name == self.name.as_bytes()
    }
}
