//! The file or the block device that holds an image.
ghost use Rattle.std.specs.Prelude.{◌≡◌, IfOk};

use crate::contents::{Content, content_of};
use crate::devices::{DeviceNumber, Locks, holder_of, holder_of_file};
use crate::fresh::FreshFile;
use crate::streams::goes_into;
use disk_model::FileDisk;
use header_slots::{Header, SLOT_BYTES, read_current};
use std::alloc::AllocError;
use std::fs::{self, File, Metadata, OpenFile, OpenOptions, TryLockError};
use std::io::{self, ErrorKind, Seek, SeekFrom};
use std::os::unix::fs::{FileExt, FileTypeExt, MetadataExt, OpenOptionsExt};
use std::path::Path;

/// Why a device's file isn't there to work on.
#[derive(Drop)]
pub enum FileFault {
    /// It can't be opened or made.
    Unopened(io::Error),
    /// It is neither a file nor a block device.
    Unfit,
    /// It is a block device with fewer bytes than the image is to have.
    Short,
    /// Something else works on it.
    InUse(Holder),
    /// It holds data, which are not to be replaced.
    HasData(Content),
    /// There is no memory to find out.
    NoMemory,
    /// It can't be locked.
    Unlocked(io::Error),
    /// What is printed would be written into it.
    IsOutput,
    /// What is told of faults would be written into it.
    IsErrors,
}

/// What else works on a device.
#[derive(Clone, Copy, PartialEq, Eq)]
pub enum Holder {
    /// Another process, which has locked it.
    Process,
    /// A file system on it, which is mounted.
    Mount,
    /// The system, which swaps to it.
    Swap,
    /// Another device on it, as of LVM, RAID or dm-crypt.
    Device,
}

impl From<AllocError> for FileFault {
    fn from(_error: AllocError) -> FileFault {
        FileFault::NoMemory
    }
}

impl From<io::Error> for FileFault {
    fn from(error: io::Error) -> FileFault {
        if error.kind() == ErrorKind::OutOfMemory {
            return FileFault::NoMemory;
        }
        FileFault::Unopened(error)
    }
}

impl From<TryLockError> for FileFault {
    fn from(error: TryLockError) -> FileFault {
        match error {
            TryLockError::WouldBlock => FileFault::InUse(Holder::Process),
            TryLockError::Error(error) => FileFault::Unlocked(error),
        }
    }
}

/// What a path names, as far as an image can lie there.
#[derive(Clone, Copy, PartialEq, Eq)]
pub(crate) enum Place {
    /// A file, which may be made and cut to length.
    File,
    /// A block device, which has the length that it has.
    BlockDevice,
}

/// Whether a lock lets others in that take a lock of the same kind.
#[derive(Clone, Copy, PartialEq, Eq)]
pub(crate) enum Sharing {
    Alone,
    Shared,
}

impl Sharing {
    /// Locks a file, without waiting.
    pub(crate) fn lock(self, file: &File) -> Result<(), TryLockError> {
        match self {
            Sharing::Alone => file.try_lock(),
            Sharing::Shared => file.try_lock_shared(),
        }
    }
}

/// An opened file with the bytes of its device.
#[derive(Drop)]
pub struct Opened {
    pub file: File,
    /// Of a block device the bytes that its header counts, and else the whole length.
    pub size: u64,
    /// The whole length.
    pub length: u64,
    pub locks: Locks,
}

// Looks before anything is opened, because the opening of a fifo waits, and that of some devices does something.
fn place_of(rt: &HostRuntime, path: &str) -> Result<Place, FileFault> {
    let kind = fs::metadata(rt, path)?.file_type();
    if kind.is_file() {
        return Ok(Place::File);
    }
    if kind.is_block_device() {
        return Ok(Place::BlockDevice);
    }
    Err(FileFault::Unfit)
}

// Locks a file, and what else names its device; nothing else works on it, and no text of this process goes into it.
fn lock_and_check(
    rt: &HostRuntime,
    file: &File,
    sharing: Sharing,
) -> Result<(Metadata, Locks), FileFault> {
    sharing.lock(file)?;
    let metadata = OpenFile::metadata(file)?;
    let locks = Locks::take(rt, &metadata, sharing)?;
    if sharing == Sharing::Alone {
        let holder = match DeviceNumber::from_metadata(&metadata) {
            Some(device) => holder_of(rt, device)?,
            None => holder_of_file(rt, &metadata)?,
        };
        if let Some(holder) = holder {
            return Err(FileFault::InUse(holder));
        }
    }
    if goes_into(rt, "/dev/stderr", &metadata) {
        return Err(FileFault::IsErrors);
    }
    if goes_into(rt, "/dev/stdout", &metadata) {
        return Err(FileFault::IsOutput);
    }
    Ok((metadata, locks))
}

// The length of a file. A block device has none but the place of its end.
fn length_of(file: &File, metadata: &Metadata, place: Place) -> io::Result<u64> {
    match place {
        Place::File => Ok(metadata.len()),
        Place::BlockDevice => {
            let mut end = file;
            end.seek(SeekFrom::End(0))
        }
    }
}

// The file, locked, with the length of its device.
fn measured(
    rt: &HostRuntime,
    file: File,
    place: Place,
    sharing: Sharing,
) -> Result<Opened, FileFault> {
    let (metadata, locks) = lock_and_check(rt, &file, sharing)?;
    let length = length_of(&file, &metadata, place)?;
    let (file, size) = match place {
        Place::File => (file, length),
        Place::BlockDevice => counted(file, length),
    };
    Ok(Opened {
        file,
        size,
        length,
        locks,
    })
}

// The bytes of a block device that its header counts; all of them where it has no header, or counts more.
fn counted(file: File, length: u64) -> (File, u64) {
    let (file, header) = header_of(file);
    match header {
        Some(header) => (file, header.geometry.device_bytes().min(length)),
        None => (file, length),
    }
}

/// The header in force of a file, however long that is.
pub fn header_of(file: File) -> (File, Option<Header>) {
    let mut front = [0; 2 * SLOT_BYTES as usize];
    if file.read_exact_at(&mut front, 0).is_err() {
        return (file, None);
    }
    let mut file = file;
    for slot in [0, SLOT_BYTES as usize] {
        let Some(header) = Header::decode(&front[slot + 1..slot + 40]) else {
            continue;
        };
        // The header in force is that of a device which is as long as it says.
        let mut disk = FileDisk::new(file, header.geometry.device_bytes());
        let current = read_current(&mut disk);
        file = disk.into_file();
        if let Ok((header, _)) = current {
            return (file, Some(header));
        }
    }
    (file, None)
}

/// Opens a device's file, which nothing else works on then.
pub fn open(rt: &HostRuntime, path: &str) -> Result<Opened, FileFault> {
    let place = place_of(rt, path)?;
    let file = OpenOptions::new().read(true).write(true).open(rt, path)?;
    measured(rt, file, place, Sharing::Alone)
}

/// Opens a device's file so that it can't be written, and no other process writes it.
pub fn open_for_reading(rt: &HostRuntime, path: &str) -> Result<Opened, FileFault> {
    let place = place_of(rt, path)?;
    let file = fs::open(rt, path)?;
    measured(rt, file, place, Sharing::Shared)
}

/// What a new image is to be, as far as its file is concerned.
#[derive(Clone, Copy)]
pub struct Wanted {
    /// The bytes of its device.
    pub size: u64,
    /// How many of the first bytes of a file are allocated before the first one of them counts.
    pub allocated: u64,
    /// Whether data that are there may be lost.
    pub replaces: bool,
}

// A new file can be read and written by its owner alone: an image is a whole disk.
const NEW_FILE_MODE: u32 = 0o600;

/// Opens a file, or makes it, that gets this length once it is written, and keeps what it holds until then; or a block device
/// that has it. Its name is stable where the system lets a folder be synced. A file that was made and isn't wanted is removed.
pub fn open_fresh(
    rt: &HostRuntime,
    path: &str,
    wanted: Wanted,
) -> Result<(FreshFile, u64), FileFault>
    ensures { IfOk result (λ fresh. fresh.1 ≡ wanted.size) }
{
    let (place, is_new) = match place_of(rt, path) {
        Err(FileFault::Unopened(error)) if error.kind() == ErrorKind::NotFound => {
            (Place::File, true)
        }
        found => (found?, false),
    };
    let file = OpenOptions::new()
        .read(true)
        .write(true)
        .create(place == Place::File)
        .mode(NEW_FILE_MODE)
        .open(rt, path)?;
    match fresh(rt, file, wanted, place) {
        Ok(file) => {
            if place == Place::File {
                sync_folder(rt, path);
            }
            Ok((file.told_new(is_new), wanted.size))
        }
        Err(fault) => {
            if is_new {
                remove_made(rt, path);
            }
            Err(fault)
        }
    }
}

// The file that was opened, locked, where it can be what is wanted.
fn fresh(
    rt: &HostRuntime,
    file: File,
    wanted: Wanted,
    place: Place,
) -> Result<FreshFile, FileFault> {
    let (metadata, locks) = lock_and_check(rt, &file, Sharing::Alone)?;
    let length = length_of(&file, &metadata, place)?;
    if place == Place::BlockDevice && length < wanted.size {
        return Err(FileFault::Short);
    }
    let (file, content) = if wanted.replaces {
        (file, None)
    } else {
        match place {
            Place::File => (file, Content::from_length(length)),
            Place::BlockDevice => content_of(file),
        }
    };
    if let Some(content) = content {
        return Err(FileFault::HasData(content));
    }
    if place == Place::File {
        try_length(&file, length, wanted.size)?;
    }
    Ok(FreshFile::new(rt, file, wanted, place, locks))
}

/// Removes a file that was made at a path; a link may have led to where.
pub fn remove_made(rt: &HostRuntime, path: &str) {
    // A file that can't be removed stays, empty.
    if let Ok(made) = Path::new(path).canonicalize(rt) {
        let _ = fs::remove_file(rt, made.as_str());
    }
}

/// Whether two paths name one file.
pub fn is_same_file(rt: &HostRuntime, one: &str, other: &str) -> bool {
    match (fs::metadata(rt, one), fs::metadata(rt, other)) {
        (Ok(one), Ok(other)) => one.dev() == other.dev() && one.ino() == other.ino(),
        _ => false,
    }
}

/// Whether a file could be opened, or made, there; what is there stays as it is, and no new file is left.
pub fn try_fresh(rt: &HostRuntime, path: &str) -> Result<(), FileFault> {
    let nothing = Wanted {
        size: 0,
        allocated: 0,
        replaces: true,
    };
    let (file, _size) = open_fresh(rt, path, nothing)?;
    if file.is_new() {
        remove_made(rt, path);
    }
    Ok(())
}

// Whether the system takes a length shows before anything is lost.
fn try_length(file: &File, length: u64, size: u64) -> io::Result<()> {
    if length < size {
        OpenFile::set_len(file, size)?;
        OpenFile::set_len(file, length)?;
    }
    Ok(())
}

fn sync_folder(rt: &HostRuntime, path: &str) {
    let folder = match Path::new(path).parent() {
        Some(folder) if folder.as_str() != "" => folder.as_str(),
        _ => ".",
    };
    if let Ok(folder) = fs::open(rt, folder) {
        let _ = OpenFile::sync_all(&folder);
    }
}
