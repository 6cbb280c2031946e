ghost use Rattle.std.specs.Prelude.{◌≡◌, ◌<◌, length, replicate, get_or, slice_set, IfOk, Some, None};
ghost use Rattle.std.specs.Vec.Ownership.{FitsInBlock};
ghost use Rattle.frame_pool.specs.Cells.{IsWritten};

use crate::cells::{Base, Cells, Deed, allocate, deallocate};
use std::alloc::{AllocError, Global};
use std::marker::Model;

// One block of cells, each of which holds a value or was never written. It is freed when it is dropped.
pub struct Region<T: Copy> {
    base: Base<T>,
    len: usize,
    cells: Cells<T>,
    deed: Deed<T, Global>,
    alloc: Global,
}

// In contracts these are the cells.
impl<T: Copy> Model for Region<T> {
    ghost use Rattle.std.specs.Prelude.{List, Option};
    ghost use Rattle.frame_pool.specs.Region.{IsRegion};

    ghost Value = { List (Option T) };

    ghost view = { λ region. region.cells.slots };

    ghost invariant = { λ region. IsRegion region.base region.len region.cells region.deed region.alloc };
}

impl<T: Copy> Region<T> {
    // This many cells, whose memory isn't touched.
    pub fn new(alloc: Global, len: usize) -> Result<Region<T>, AllocError>
        requires { FitsInBlock T.row len }
        ensures { IfOk result (λ region. region ≡ replicate len None) }
    {
        let (base, cells, deed) = allocate(&alloc, len)?;
        Ok(Region {
            base,
            len,
            cells,
            deed,
            alloc,
        })
    }

    // The value of a cell that was written.
    pub fn get(&self, index: usize) -> &T
        requires { IsWritten self.now index }
        ensures { get_or self.now index None ≡ Some result.now }
    {
        self.cells.get(self.base, index)
    }

    // Writes a cell that was written before, by one copy.
    pub fn write_over(&mut self, index: usize, item: &T)
        requires { IsWritten self.old index }
        ensures { self.new ≡ slice_set self.old index (Some item.now) }
    {
        *self.cells.get_mut(self.base, index) = *item;
    }

    // Writes a cell.
    pub fn write(&mut self, index: usize, item: T)
        requires { index < length self.old }
        ensures { self.new ≡ slice_set self.old index (Some item) }
    {
        self.cells.write(self.base, index, item);
    }
}

impl<T: Copy> Drop for Region<T> {
    fn drop(self) {
        let Region {
            base,
            len,
            cells,
            deed,
            alloc,
        } = self;
        deallocate(&alloc, base, len, cells, deed);
    }
}
