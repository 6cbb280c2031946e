//! Memory that is used again: for long READs, and for the data of WRITEs.
ghost use Rattle.std.specs.Prelude.{◌≡◌, ◌≤◌, [], IfSome, vec_len, vec_capacity};

use disk_model::free_buffer;
use image_model::Command;
use std::alloc::Global;
use std::mem;

/// A READ of fewer bytes takes a buffer of its own.
pub(crate) const LEAST_KEPT: usize = 65_536;

/// The most buffers that are kept for READs, of 1 MiB each.
const MOST_KEPT: usize = 16;

/// The most bytes that are kept for the data of WRITEs.
const MOST_DATA: usize = 16_777_216;

/// The fewest bytes of a buffer for data, and how many sizes there are: each is twice the one before, up to 1 MiB.
const LEAST_DATA: usize = 4_096;

const SIZES: usize = 9;

/// Buffers that aren't in use.
#[derive(Drop)]
pub(crate) struct BufferPool {
    alloc: Global,
    // Those that were read into before: they needn't be made zero again.
    free: Vec<Vec<u8>>,
    // Those for data, a list for each size.
    data: Vec<Vec<Vec<u8>>>,
    // How many bytes those have together.
    data_bytes: usize,
}

// Which of the sizes this is; None if it isn't one.
fn size_at(bytes: usize) -> Option<usize> {
    if bytes < LEAST_DATA || !bytes.is_power_of_two() {
        return None;
    }
    let at = (bytes / LEAST_DATA).trailing_zeros() as usize;
    if at < SIZES { Some(at) } else { None }
}

fn free_all(buffers: Vec<Vec<u8>>) {
    let mut buffers = buffers;
    while let Some(buffer) = buffers.pop() {
        free_buffer(buffer);
    }
}

impl BufferPool {
    pub(crate) fn new(alloc: Global) -> BufferPool {
        BufferPool {
            alloc,
            free: Vec::new(alloc),
            data: Vec::new(alloc),
            data_bytes: 0,
        }
    }

    /// A kept buffer of this many bytes, whatever they are; None if none is kept, or without memory.
    pub(crate) fn take(&mut self, length: usize) -> Option<Vec<u8>>
        ensures { IfSome result (λ buffer. vec_len buffer ≡ length) }
    {
        let mut buffer = self.free.pop()?;
        buffer.resize(length, 0).ok()?;
        Some(buffer)
    }

    /// Takes a buffer back, for data if enough others are kept.
    pub(crate) fn put(&mut self, buffer: Vec<u8>) {
        if self.free.len() < MOST_KEPT && self.free.reserve(1).is_ok() {
            self.free.push_reserved(buffer);
        } else {
            self.put_data(buffer);
        }
    }

    /// An empty buffer for this many bytes. None if none of their size is kept; fewer bytes than a block take one for a block.
    pub(crate) fn take_data(&mut self, room: usize) -> Option<Vec<u8>>
        ensures { IfSome result (λ buffer. (buffer.items ≡ []) × (room ≤ vec_capacity buffer)) }
    {
        let at = size_at(room.max(LEAST_DATA))?;
        let mut buffer = self.data.get_mut(at)?.pop()?;
        self.data_bytes = self.data_bytes.saturating_sub(buffer.capacity());
        if buffer.capacity() < room {
            return None;
        }
        buffer.clear();
        Some(buffer)
    }

    /// Keeps the memory of commands that aren't needed any more.
    pub(crate) fn put_commands(&mut self, commands: Vec<Command>) {
        let mut commands = commands;
        while let Some(command) = commands.pop() {
            if let Command::Put { first: _, bytes } = command {
                self.put_data(bytes);
            }
        }
    }

    /// Keeps the memory of data, or of a READ that didn't need it. What is too much is freed, and what isn't of a size.
    pub(crate) fn put_data(&mut self, buffer: Vec<u8>) {
        let size = buffer.capacity();
        let bytes = self.data_bytes.saturating_add(size);
        if bytes <= MOST_DATA
            && let Some(buffers) = self.list_of(size)
            && buffers.reserve(1).is_ok()
        {
            buffers.push_reserved(buffer);
            self.data_bytes = bytes;
            return;
        }
        free_buffer(buffer);
    }

    // The list of the buffers of this size; None if there is no such list, or without memory.
    fn list_of(&mut self, size: usize) -> Option<&mut Vec<Vec<u8>>> {
        let at = size_at(size)?;
        for _ in self.data.len()..SIZES {
            self.data.push(Vec::new(self.alloc)).ok()?;
        }
        self.data.get_mut(at)
    }

    /// All that is kept, to be freed without the lock.
    pub(crate) fn take_all(&mut self) -> BufferPool {
        let alloc = self.alloc;
        mem::replace(self, BufferPool::new(alloc))
    }

    /// Frees all that is kept.
    pub(crate) fn free(self) {
        let BufferPool {
            alloc: _,
            free,
            data,
            data_bytes: _,
        } = self;
        free_all(free);
        let mut data = data;
        while let Some(buffers) = data.pop() {
            free_all(buffers);
        }
    }
}
