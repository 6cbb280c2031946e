//! Block devices, as Linux tells of them in `/sys` and `/proc`: what else uses one, and what else names it.

use crate::files::{FileFault, Holder, Sharing};
use std::fs::{self, File, Metadata, OpenFile};
use std::io::{self, ErrorKind};
use std::os::unix::fs::{FileTypeExt, MetadataExt};

/// The numbers by which the system knows a block device, whatever node names it.
#[derive(Clone, Copy, PartialEq, Eq)]
pub(crate) struct DeviceNumber {
    major: u64,
    minor: u64,
}

impl DeviceNumber {
    /// Of a block device's node.
    pub(crate) fn from_metadata(node: &Metadata) -> Option<DeviceNumber> {
        if !node.file_type().is_block_device() {
            return None;
        }
        let packed = node.rdev();
        Some(DeviceNumber {
            major: (packed >> 8 & 0xfff) | (packed >> 32 & 0xffff_f000),
            minor: (packed & 0xff) | (packed >> 12 & 0xffff_ff00),
        })
    }

    // Of what a path names.
    fn at(rt: &HostRuntime, path: &str) -> Option<DeviceNumber> {
        match fs::metadata(rt, path) {
            Ok(node) => DeviceNumber::from_metadata(&node),
            Err(_) => None,
        }
    }

    // As the system writes it, `MAJOR:MINOR`.
    fn parse(text: &str) -> Option<DeviceNumber> {
        let (major, minor) = text.trim_end().split_once(':')?;
        match (major.parse::<u64>(), minor.parse::<u64>()) {
            (Ok(major), Ok(minor)) => Some(DeviceNumber { major, minor }),
            _ => None,
        }
    }

    // What a file tells of it in its folder of `/sys`, without the end of the line.
    fn told(self, rt: &HostRuntime, name: &str) -> io::Result<Option<String>> {
        let DeviceNumber { major, minor } = self;
        let path = format!(in rt.alloc(); "/sys/dev/block/{major}:{minor}/{name}")?;
        text_at(rt, path.as_str())
    }

    // The device that this one is a partition of.
    fn whole(self, rt: &HostRuntime) -> io::Result<Option<DeviceNumber>> {
        if self.told(rt, "partition")?.is_none() {
            return Ok(None);
        }
        match self.told(rt, "../dev")? {
            Some(text) => Ok(DeviceNumber::parse(text.as_str())),
            None => Ok(None),
        }
    }

    // Whether another device stands on it.
    fn is_in_use(self, rt: &HostRuntime) -> io::Result<bool> {
        let DeviceNumber { major, minor } = self;
        let path = format!(in rt.alloc(); "/sys/dev/block/{major}:{minor}/holders")?;
        match fs::read_dir(rt, path.as_str()) {
            Ok(mut holders) => Ok(holders.next().is_some()),
            Err(error) => none_but_memory(error).map(|_| false),
        }
    }
}

// The text of a file that the system makes up; none where there is no such file.
fn text_at(rt: &HostRuntime, path: &str) -> io::Result<Option<String>> {
    match fs::read(rt, path) {
        Ok(bytes) => Ok(Some(String::from_utf8_lossy(rt.alloc(), bytes.as_slice())?)),
        Err(error) => none_but_memory(error).map(|_| None),
    }
}

// What the system doesn't tell is taken as nothing; but without memory it isn't known.
fn none_but_memory(error: io::Error) -> io::Result<()> {
    if error.kind() == ErrorKind::OutOfMemory {
        return Err(error);
    }
    Ok(())
}

/// What uses a device beside this program, or a part of it, or the whole that it is a part of.
pub(crate) fn holder_of(rt: &HostRuntime, device: DeviceNumber) -> io::Result<Option<Holder>> {
    let family = family_of(rt, device)?;
    if mounts_one(rt, family.as_slice())? {
        return Ok(Some(Holder::Mount));
    }
    if swaps_to_one(rt, family.as_slice())? {
        return Ok(Some(Holder::Swap));
    }
    for member in family.as_slice() {
        if member.is_in_use(rt)? {
            return Ok(Some(Holder::Device));
        }
    }
    Ok(None)
}

// A device, its partitions, and the device that it is a partition of.
fn family_of(rt: &HostRuntime, device: DeviceNumber) -> io::Result<Vec<DeviceNumber>> {
    let DeviceNumber { major, minor } = device;
    let mut family = vec![in rt.alloc(); device]?;
    if let Some(whole) = device.whole(rt)? {
        family.push(whole)?;
    }
    let folder = format!(in rt.alloc(); "/sys/dev/block/{major}:{minor}")?;
    let entries = match fs::read_dir(rt, folder.as_str()) {
        Ok(entries) => entries,
        Err(error) => {
            none_but_memory(error)?;
            return Ok(family);
        }
    };
    for entry in entries {
        let entry = entry?;
        if let Some(part) = partition_named(rt, device, entry.file_name())? {
            family.push(part)?;
        }
    }
    Ok(family)
}

// The partition of a device whose folder has this name.
fn partition_named(
    rt: &HostRuntime,
    device: DeviceNumber,
    name: &str,
) -> io::Result<Option<DeviceNumber>> {
    let mark = format!(in rt.alloc(); "{name}/partition")?;
    if device.told(rt, mark.as_str())?.is_none() {
        return Ok(None);
    }
    let number = format!(in rt.alloc(); "{name}/dev")?;
    match device.told(rt, number.as_str())? {
        Some(text) => Ok(DeviceNumber::parse(text.as_str())),
        None => Ok(None),
    }
}

// Whether a file system on one of these devices is mounted. Some, as Btrfs, have a number of their own, and name the device.
fn mounts_one(rt: &HostRuntime, devices: &[DeviceNumber]) -> io::Result<bool> {
    let Some(mounts) = text_at(rt, "/proc/self/mountinfo")? else {
        return Ok(false);
    };
    for mount in mounts.as_str().lines() {
        let number = mount
            .split(' ')
            .nth(2)
            .and_then(|text| DeviceNumber::parse(text));
        if is_among(devices, number) || is_among(devices, source_of(rt, mount)) {
            return Ok(true);
        }
    }
    Ok(false)
}

// The device that a line of `mountinfo` names after its hyphen.
fn source_of(rt: &HostRuntime, mount: &str) -> Option<DeviceNumber> {
    let (_, behind) = mount.split_once(" - ")?;
    let source = behind.split(' ').nth(1)?;
    if !source.starts_with("/dev/") {
        return None;
    }
    DeviceNumber::at(rt, source)
}

fn swaps_to_one(rt: &HostRuntime, devices: &[DeviceNumber]) -> io::Result<bool> {
    let Some(swaps) = text_at(rt, "/proc/swaps")? else {
        return Ok(false);
    };
    for swap in swaps.as_str().lines() {
        let path = swap.split_whitespace().next().unwrap_or("");
        if is_among(devices, DeviceNumber::at(rt, path)) {
            return Ok(true);
        }
    }
    Ok(false)
}

fn is_among(devices: &[DeviceNumber], wanted: Option<DeviceNumber>) -> bool {
    match wanted {
        Some(wanted) => devices.contains(&wanted),
        None => false,
    }
}

/// What uses a file by a loop device.
pub(crate) fn holder_of_file(rt: &HostRuntime, file: &Metadata) -> io::Result<Option<Holder>> {
    let entries = match fs::read_dir(rt, "/sys/block") {
        Ok(entries) => entries,
        Err(error) => return none_but_memory(error).map(|_| None),
    };
    for entry in entries {
        let entry = entry?;
        if let Some(device) = loop_on(rt, entry.file_name(), file)? {
            let holder = holder_of(rt, device)?;
            if holder.is_some() {
                return Ok(holder);
            }
        }
    }
    Ok(None)
}

// The loop device of this name, where it is on this file.
fn loop_on(rt: &HostRuntime, name: &str, file: &Metadata) -> io::Result<Option<DeviceNumber>> {
    if !name.starts_with("loop") {
        return Ok(None);
    }
    let backing = format!(in rt.alloc(); "/sys/block/{name}/loop/backing_file")?;
    let Some(path) = text_at(rt, backing.as_str())? else {
        return Ok(None);
    };
    match fs::metadata(rt, path.as_str().trim_end()) {
        Ok(found) if is_same(&found, file) => {}
        _ => return Ok(None),
    }
    let number = format!(in rt.alloc(); "/sys/block/{name}/dev")?;
    match text_at(rt, number.as_str())? {
        Some(text) => Ok(DeviceNumber::parse(text.as_str())),
        None => Ok(None),
    }
}

fn is_same(one: &Metadata, other: &Metadata) -> bool {
    one.dev() == other.dev() && one.ino() == other.ino()
}

/// Locks on what else names the bytes of a block device, as long as it is kept: its node in `/dev`, the device that it is a partition
/// of, and the backing file of a loop device.
#[derive(Drop)]
pub struct Locks {
    _files: Vec<File>,
}

impl Locks {
    /// Locks what else names the bytes of this node; nothing for a file.
    pub(crate) fn take(
        rt: &HostRuntime,
        node: &Metadata,
        sharing: Sharing,
    ) -> Result<Locks, FileFault> {
        let mut files = Vec::new(rt.alloc());
        if let Some(device) = DeviceNumber::from_metadata(node) {
            let own = lock_node(rt, device, node, sharing)?;
            let behind = lock_backing(rt, device, sharing)?;
            let whole = match device.whole(rt)? {
                Some(whole) => lock_node(rt, whole, node, Sharing::Shared)?,
                None => None,
            };
            for file in [own, behind, whole] {
                if let Some(file) = file {
                    files.push(file).map_err(|_| FileFault::NoMemory)?;
                }
            }
        }
        Ok(Locks { _files: files })
    }
}

// Locks the node that the system has made of a device in `/dev`, where that is another one than the node in use.
fn lock_node(
    rt: &HostRuntime,
    device: DeviceNumber,
    node: &Metadata,
    sharing: Sharing,
) -> Result<Option<File>, FileFault> {
    let Some(event) = device.told(rt, "uevent")? else {
        return Ok(None);
    };
    for line in event.as_str().lines() {
        if let Some(name) = line.strip_prefix("DEVNAME=") {
            let path = format!(in rt.alloc(); "/dev/{name}")?;
            return match fs::metadata(rt, path.as_str()) {
                Ok(found)
                    if DeviceNumber::from_metadata(&found) == Some(device)
                        && !is_same(&found, node) => { lock_at(rt, path.as_str(), sharing) }
                _ => Ok(None),
            };
        }
    }
    Ok(None)
}

// Locks the backing file of a loop device, or of the one that this is a partition of.
fn lock_backing(
    rt: &HostRuntime,
    device: DeviceNumber,
    sharing: Sharing,
) -> Result<Option<File>, FileFault> {
    if let Some(path) = device.told(rt, "loop/backing_file")? {
        return lock_at(rt, path.as_str().trim_end(), sharing);
    }
    match device.told(rt, "../loop/backing_file")? {
        Some(path) => lock_at(rt, path.as_str().trim_end(), Sharing::Shared),
        None => Ok(None),
    }
}

// Locks what a path names, where it can be opened.
fn lock_at(rt: &HostRuntime, path: &str, sharing: Sharing) -> Result<Option<File>, FileFault> {
    match fs::open(rt, path) {
        Ok(file) => {
            sharing.lock(&file)?;
            Ok(Some(file))
        }
        Err(_) => Ok(None),
    }
}
