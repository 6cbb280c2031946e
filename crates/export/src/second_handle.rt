//! Reads of a device without locks.
ghost use Rattle.std.specs.Prelude.{ℕ, ◌≡◌, ◌≤◌, ◌*◌, ◌-◌, List, IsTrue, OnOk, slice_range};
ghost use Rattle.export.specs.Noted.{base_of};
ghost use Rattle.regions.specs.Layout.{block_at};
ghost use Rattle.shared_store.specs.Orders.{SpanRead};

use crate::commit_queue::NotedBase;
use crate::name::ExportName;
use disk_model::DeviceFault;
use image_model::Geometry;
use order_book::{Order, Span};

/// A second handle of a device, which reads it while others may write it.
pub trait ReadUnlocked: Drop {
    /// The bytes that it may give from a place of the device on, when it is asked for them under a base.
    ghost gives: { Self → ℕ → ℕ → List ℕ → Type 0 };

    /// What it vouches for: bytes of blocks, of which it gave those in a span, and an order over which they are served. That these are
    /// the bytes of the base is a premise; on it rests which image a READ and memory show. A handle of a file can't show that its bytes
    /// are right. So what it vouches for has to be what it gave, and no more: of other bytes the premise would be false.
    ghost vouches: { Self → SpanRead → Type 0 };

    /// Reads the bytes from `offset` on. `asked` is the base that the order had noted when they were found missing. Bytes that nobody
    /// writes meanwhile are what the device holds; others may be any. After a fault `into` holds any bytes.
    fn read_unlocked(
        &self,
        asked: NotedBase,
        offset: u64,
        into: &mut [u8],
    ) -> Result<(), DeviceFault>
        ensures { OnOk result (gives self.now (base_of asked) offset into.new) };

    /// Bytes from `offset` on will be read soon: the system may begin to read them. No answer depends on it.
    fn prefetch(&self, _offset: u64, _length: u64) {}

    /// Whether it vouches for bytes of blocks, from the first one on, that are about to be served over an order. It gave those in the span,
    /// on a device of the export's sizes, when it was asked under the base that the order has noted still. Bytes that it doesn't vouch
    /// for aren't served.
    fn vouch<B: ExportName>(
        &self,
        geometry: &Geometry,
        first: u64,
        span: Span,
        bytes: &[u8],
        asked: NotedBase,
        order: &Order<B>,
    ) -> bool
        requires device { geometry.now ≡ B.geometry }
        requires from { first ≤ span.first }
        requires noted { base_of asked ≡ order.now.base }
        requires given { gives self.now (base_of asked) (block_at geometry.now span.first) (slice_range bytes.now (4096 * (span.first - first)) (4096 * (span.end - first))) }
        ensures { IsTrue result → vouches self.now (record { first = first; span = span; bytes = bytes.now; order = order.now }) };
}

/// Reads nothing: for a device that has no second handle.
impl ReadUnlocked for () {
    // It never reads, so this is said of nothing.
    ghost gives = { λ handle asked offset bytes. Unit {0} };

    ghost vouches = { λ handle read. ⊥ };

    fn read_unlocked(
        &self,
        _asked: NotedBase,
        _offset: u64,
        _into: &mut [u8],
    ) -> Result<(), DeviceFault> {
        Err(DeviceFault)
    }

    fn vouch<B: ExportName>(
        &self,
        _geometry: &Geometry,
        _first: u64,
        _span: Span,
        _bytes: &[u8],
        _asked: NotedBase,
        _order: &Order<B>,
    ) -> bool {
        false
    }
}
