//! A second handle whose word is proved.
ghost use Rattle.std.specs.Prelude.{◌≡◌, ◌%◌, [], IfSome, IsTrue, length};
ghost use Rattle.device_image.specs.Holds.{Holds};
ghost use Rattle.export.specs.Trusted.{IsTrustedWith, image_found};

use disk_model::{DeviceFault, Disk, SimDisk};
use export::{ExportName, NotedBase, OpenDevice, ReadUnlocked};
use image_model::{BLOCK_BYTES, Geometry};
use order_book::{Order, Span};
use std::alloc::Global;
use std::sync::atomic::{AtomicU64, Ordering};

/// A second handle with a copy of the data that an image had when its device was opened. It vouches for this until a
/// checkpoint changes the base.
#[derive(Drop)]
pub struct Snapshot<'a> {
    copy: Vec<u8>,
    geometry: Geometry,
    // The number of the last command in the copy.
    base: u64,
    // How often it has vouched.
    served: &'a AtomicU64,
}

impl<'a> ReadUnlocked for Snapshot<'a> {
    ghost use Rattle.server_tests.specs.Snapshot.{GivesOf, VouchesOf};

    ghost gives = { λ handle asked offset bytes. GivesOf handle.copy.items handle.geometry.blocks handle.geometry.area offset bytes };

    ghost vouches = { λ handle read. VouchesOf handle.copy.items handle.base read };

    fn read_unlocked(
        &self,
        _asked: NotedBase,
        offset: u64,
        into: &mut [u8],
    ) -> Result<(), DeviceFault> {
        let from = self.geometry.device_bytes() - BLOCK_BYTES * self.geometry.blocks;
        let Some(at) = offset.checked_sub(from) else {
            return Err(DeviceFault);
        };
        let at = at as usize;
        if self.copy.len() < into.len() || self.copy.len() - into.len() < at {
            return Err(DeviceFault);
        }
        into.copy_from_slice(&self.copy[at..at + into.len()]);
        Ok(())
    }

    fn vouch<B: ExportName>(
        &self,
        geometry: &Geometry,
        _first: u64,
        _span: Span,
        bytes: &[u8],
        asked: NotedBase,
        _order: &Order<B>,
    ) -> bool {
        self.served.fetch_add(1, Ordering::SeqCst);
        self.fits(geometry, bytes, asked.number())
    }
}

impl<'a> Snapshot<'a> {
    // Whether the copy is of a device of these sizes, at this base, and the bytes are whole blocks.
    fn fits(&self, geometry: &Geometry, bytes: &[u8], base: u64) -> bool
        ensures blocks { IsTrue result → self.now.geometry.blocks ≡ geometry.now.blocks }
        ensures area { IsTrue result → self.now.geometry.area ≡ geometry.now.area }
        ensures base { IsTrue result → self.now.base ≡ base }
        ensures whole { IsTrue result → length bytes.now % 4096 ≡ 0 }
    {
        if self.geometry.blocks != geometry.blocks || self.geometry.area != geometry.area {
            return false;
        }
        if self.base != base {
            return false;
        }
        bytes.len() % 4096 == 0
    }
}

/// Opens a simulated device with such a handle. The device is trusted, and all that the handle vouches for is right: both
/// are proved.
pub fn open_with_snapshot<'a>(
    alloc: Global,
    disk: SimDisk,
    served: &'a AtomicU64,
) -> Option<OpenDevice<SimDisk, Snapshot<'a>>>
    ensures { IfSome result (λ device. IsTrustedWith ⟦<SimDisk as Disk>⟧.state ⟦<SimDisk as Disk>⟧.honest ⟦<Snapshot<'a> as ReadUnlocked>⟧.vouches device.keeper device.second_handle (image_found ⟦<SimDisk as Disk>⟧.state device.keeper)) }
{
    match OpenDevice::<SimDisk, Snapshot<'a>>::open(alloc, disk, None) {
        Ok(device) => with_copy(alloc, device, served),
        Err(_) => None,
    }
}

// The device with a handle that has a copy of its data.
fn with_copy<'a>(
    alloc: Global,
    device: OpenDevice<SimDisk, Snapshot<'a>>,
    served: &'a AtomicU64,
) -> Option<OpenDevice<SimDisk, Snapshot<'a>>>
    requires held { ⟦<SimDisk as Disk>⟧.honest device.keeper.disk → Holds device.keeper (⟦<SimDisk as Disk>⟧.state device.keeper.disk) (image_found ⟦<SimDisk as Disk>⟧.state device.keeper) [] [] }
    ensures { IfSome result (λ device. IsTrustedWith ⟦<SimDisk as Disk>⟧.state ⟦<SimDisk as Disk>⟧.honest ⟦<Snapshot<'a> as ReadUnlocked>⟧.vouches device.keeper device.second_handle (image_found ⟦<SimDisk as Disk>⟧.state device.keeper)) }
{
    let OpenDevice {
        blank,
        keeper,
        second_handle: _,
        failures,
    } = device;
    let mut keeper = keeper;
    let geometry = keeper.geometry();
    let mut copy = vec![in alloc; 0; (BLOCK_BYTES * geometry.blocks) as usize].ok()?;
    match keeper.read_base(0, &mut copy) {
        Ok(()) => {}
        Err(_) => return None,
    }
    let handle = Snapshot {
        copy,
        geometry,
        base: keeper.count(),
        served,
    };
    Some(OpenDevice {
        blank,
        keeper,
        second_handle: Some(handle),
        failures,
    })
}
