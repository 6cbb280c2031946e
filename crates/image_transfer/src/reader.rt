ghost use Rattle.std.specs.Prelude.{◌≡◌, ◌+◌, ◌/◌, ◌%◌, ◌≤◌, ◌<◌, ◌↔◌, length, IfErr, IfOk, OnOk};

use crate::fault::SourceFault;
use crate::source::Source;
use crate::zeroes::BLOCK;
use checkpoint::{Content, KeeperFault};
use disk_model::Disk;
use image_model::Geometry;
use std::alloc::Global;

/// The blocks of the image that a device holds, its journal included. The device is only read.
#[derive(Drop)]
pub struct ImageReader<D: Disk + Drop> {
    disk: D,
    content: Content,
    next: u64,
}

impl<D: Disk + Drop> ImageReader<D> {
    /// The reader of the image that this device holds. A refusal hands the device back: 7 (no header), 8 (bad header), 6 (bad map) and
    /// 12 (damaged group), 0 (no memory) and 1 (device fault).
    pub fn new(alloc: Global, mut disk: D) -> Result<ImageReader<D>, (KeeperFault, D)>
        ensures { IfOk result (λ reader. ⟦<ImageReader<D> as Source>⟧.block reader ≡ 0) }
    {
        match Content::read(alloc, &mut disk) {
            Ok(content) => Ok(ImageReader {
                disk,
                content,
                next: 0,
            }),
            Err(fault) => Err((fault, disk)),
        }
    }

    /// The sizes that the device was formatted with.
    pub fn geometry(&self) -> Geometry {
        self.content.geometry
    }

    // How many of the blocks from this one on, at most this many, are read as one range of the device, and its first byte, or are zero.
    fn run_at(&self, block: u64, most: usize) -> (usize, Option<u64>)
        requires { 1 ≤ most }
        ensures { (1 ≤ result.0) × (result.0 ≤ most) }
    {
        let place = self.content.place_of(block);
        let mut count = 1;
        while count < most && self.goes_on(block, count, place) {
            count += 1;
        }
        (count, place)
    }

    // Whether the block this many after one goes on from the first byte of that one, or is zero as well.
    fn goes_on(&self, block: u64, count: usize, place: Option<u64>) -> bool {
        let next = self.content.place_of(block.saturating_add(count as u64));
        let passed = (count as u64).saturating_mul(BLOCK as u64);
        match (next, place) {
            (None, None) => true,
            (Some(next), Some(first)) => next == first.saturating_add(passed),
            _ => false,
        }
    }

    // Reads a range of the device, or makes zeroes of none.
    fn read_range(&mut self, place: Option<u64>, into: &mut [u8]) -> Result<(), SourceFault>
        ensures { self.new.next ≡ self.old.next }
    {
        let Some(place) = place else {
            into.fill(0);
            return Ok(());
        };
        if place > self.disk.size() || into.len() as u64 > self.disk.size() - place {
            return Err(SourceFault);
        }
        match self.disk.read(place, into) {
            Ok(()) => Ok(()),
            Err(_) => Err(SourceFault),
        }
    }

    // Reads this many blocks from the next one on.
    fn read_blocks(&mut self, into: &mut [u8]) -> Result<(), SourceFault>
        ensures { self.new.next ≡ self.old.next }
    {
        let count = into.len() / BLOCK;
        let mut at = 0;
        while at < count {
            let (run, place) = self.run_at(self.next.saturating_add(at as u64), count - at);
            self.read_range(place, &mut into[BLOCK * at..BLOCK * (at + run)])?;
            at += run;
        }
        Ok(())
    }
}

impl<D: Disk + Drop> Source for ImageReader<D> {
    ghost byte = { λ reader place. 0 };

    ghost block = { λ reader. reader.next };

    ghost honest = { λ reader. ⊥ };

    fn pass_zeroes(&mut self, most: u64) -> Result<u64, SourceFault> {
        let mut passed = 0;
        while passed < most
            && self
                .content
                .place_of(self.next.saturating_add(passed))
                .is_none()
        {
            passed += 1;
        }
        self.next += passed;
        Ok(passed)
    }

    fn read(&mut self, into: &mut [u8]) -> Result<(), SourceFault> {
        self.read_blocks(into)?;
        self.next += (into.len() / BLOCK) as u64;
        Ok(())
    }
}
