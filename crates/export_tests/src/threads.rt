//! Threads beside the passes of an export: one that stores groups, and one that copies the journal into the image.

use disk_model::Disk;
use export::{Export, ExportName, ReadUnlocked};
use std::rt::Clock;
use std::sync::Wait;
use std::thread::Scope;

/// Starts a flusher and a checkpointer; whether there are threads for both. They end once all passes have left.
pub(crate) fn start_storing<'s, E, B, D, H, R>(
    scope: &Scope<'s, E>,
    rt: &'s R,
    export: &'s Export<B, D, H>,
) -> bool
where
    B: ExportName + Send + Sync + 's,
    D: Disk + Send + 's,
    H: ReadUnlocked + Send + Sync + 's,
    R: Wait + Clock + Sync + 's,
{
    scope.spawn(move || export.flusher(rt, &mut ())).is_ok()
        && scope
            .spawn(move || export.checkpointer(rt, &mut ()))
            .is_ok()
}
