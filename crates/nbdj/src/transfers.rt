//! `import` and `export`: files and streams round a transfer.

ghost use Rattle.std.specs.Prelude.{◌≡◌, IfOk};
ghost use Rattle.image_model.specs.Geometry.{device_bytes_of};

use crate::no_file;
use crate::teller::Teller;
use disk_model::{Disk, FileDisk};
use front_end::{FormatOptions, ImportSizes, Refusal};
use image_files::{
    FileFault, FileSource, FileTarget, Opened, StreamSource, StreamTarget, ToldFile, ToldSource,
    Wanted, has_magic, is_same_file, open_for_reading, open_fresh, remove_made,
};
use image_model::{BLOCK_BYTES, Geometry, Layout, MOST_BLOCKS};
use image_transfer::{ImageReader, Source, TransferFault, export, import};
use nbdj_pipe::{check_status, exit_status};
use std::fs::File;
use std::io::{self, Write};

/// The path that stands for standard input, or for standard output.
const STREAM: &str = "-";

// An image that is to be made of a source.
#[derive(Clone, Copy)]
struct Making<'a> {
    rt: &'a HostRuntime,
    teller: Teller,
    source: &'a str,
    path: &'a str,
    sizes: ImportSizes,
    options: FormatOptions,
}

/// Makes an image of a source, and gives the exit status.
pub fn import_to(
    rt: &HostRuntime,
    teller: Teller,
    source: &str,
    path: &str,
    sizes: ImportSizes,
    options: FormatOptions,
) -> u8 {
    let making = Making {
        rt,
        teller,
        source,
        path,
        sizes,
        options,
    };
    if source == STREAM {
        return making.from_stream();
    }
    if is_same_file(rt, source, path) {
        let _ = eprintln!(rt; "nbdj: {path} is the source");
        return 1;
    }
    match open_for_reading(rt, source) {
        Ok(opened) if has_magic(&opened.file) => making.from_image(teller.tell_header(
            source, opened,
        )),
        Ok(opened) => making.from_file(opened),
        Err(fault) => no_file(rt, teller, source, fault),
    }
}

impl<'a> Making<'a> {
    // With the bytes of standard input.
    fn from_stream(self) -> u8 {
        let bytes = self.sizes.blocks.unwrap_or(0).saturating_mul(BLOCK_BYTES);
        let tells = self.teller.tells_causes();
        let stream = StreamSource::new(*self.rt, self.rt.stdin(), bytes, tells);
        self.make(stream, bytes)
    }

    // With those of a file or a block device.
    fn from_file(self, opened: Opened) -> u8 {
        let Opened {
            file,
            size: _,
            length,
            locks,
        } = opened;
        let tells = self.teller.tells_causes();
        let status = self.make(
            FileSource::new(*self.rt, file, self.source, length, tells),
            length,
        );
        let _locks = locks;
        status
    }

    // With those of an image.
    fn from_image(self, opened: Opened) -> u8 {
        let Opened {
            file,
            size,
            length: _,
            locks,
        } = opened;
        let status = match reader_of(self.rt, self.teller, file, self.source, size) {
            Ok(reader) => {
                let bytes = reader.geometry().blocks.saturating_mul(BLOCK_BYTES);
                self.make(reader, bytes)
            }
            Err(status) => status,
        };
        let _locks = locks;
        status
    }

    // With the bytes of a source, of which there are so many.
    fn make<S: Source + Drop>(self, source: S, bytes: u64) -> u8
        requires { S.block source ≡ 0 }
    {
        let Some(geometry) = self.geometry(bytes) else {
            return 1;
        };
        let wanted = Wanted {
            size: geometry.device_bytes(),
            allocated: crate::allocated_of(geometry, self.options),
            replaces: self.options.replaces,
        };
        match open_fresh(self.rt, self.path, wanted) {
            Ok((file, size)) => {
                let is_new = file.is_new();
                let tells = self.teller.tells_causes();
                let file = ToldFile::new(*self.rt, file, self.path, tells, false);
                let source = ToldSource::new(self.rt, source, geometry.blocks);
                let status = self.fill(FileDisk::new(file, size), source, geometry, bytes);
                if status != 0 && is_new {
                    remove_made(self.rt, self.path);
                }
                status
            }
            Err(fault) => no_file(self.rt, self.teller, self.path, fault),
        }
    }
}

impl<'a> Making<'a> {
    // The sizes of the image, where the source has so many bytes; why there are none is told.
    fn geometry(self, bytes: u64) -> Option<Geometry> {
        let Making {
            rt,
            source,
            sizes,
            ..
        } = self;
        let held = bytes.div_ceil(BLOCK_BYTES);
        let blocks = sizes.blocks.unwrap_or(held);
        // If not even that can be written, the status alone tells.
        let _ = if blocks < held {
            let size = blocks.saturating_mul(BLOCK_BYTES);
            eprintln!(rt; "nbdj: {source} has {bytes} bytes, and --size only {size}")
        } else if blocks == 0 {
            eprintln!(rt; "nbdj: {source} has no bytes; --size gives the image some")
        } else if blocks > MOST_BLOCKS {
            eprintln!(rt; "nbdj: {source} has {bytes} bytes, more than an image can have")
        } else {
            let geometry = Geometry::new(blocks, sizes.area)?;
            return match sizes.layout {
                Layout::One => Some(geometry),
                Layout::Two => geometry.with_layout_two(),
            };
        };
        None
    }

    // Makes the image, and tells that it is made.
    fn fill<S: Source + Drop>(
        self,
        disk: ImageDisk<'a>,
        source: ToldSource<S>,
        geometry: Geometry,
        bytes: u64,
    ) -> u8
        requires size { ⟦<ImageDisk<'a> as Disk>⟧.extent disk ≡ device_bytes_of geometry.blocks geometry.area }
        requires first { ⟦<ToldSource<S> as Source>⟧.block source ≡ 0 }
    {
        let (mut disk, mut source) = (disk, source);
        let imported = import(self.rt.alloc(), &mut disk, geometry, &mut source);
        source.finish();
        let outcome = match imported {
            Ok(()) => self.tell(geometry, bytes),
            Err(TransferFault::NoMemory) => Err(Refusal::NoMemory),
            Err(TransferFault::Source) => Err(Refusal::StreamFault),
            Err(TransferFault::Target) => Err(Refusal::DeviceFault),
        };
        exit_status(outcome, &mut self.rt.stderr())
    }

    fn tell(self, geometry: Geometry, bytes: u64) -> Result<(), Refusal> {
        let Making { rt, source, .. } = self;
        let size = geometry.blocks.saturating_mul(BLOCK_BYTES);
        if bytes % BLOCK_BYTES != 0 {
            let padded = bytes.div_ceil(BLOCK_BYTES).saturating_mul(BLOCK_BYTES);
            // If it can't be written nobody listens.
            let _ = eprintln!(rt; "nbdj: {source}: {bytes} bytes, padded with zeroes to {padded}");
        }
        print_bytes(rt, "imported", size)
    }
}

// The device of a file that is to be an image.
type ImageDisk<'a> = FileDisk<ToldFile<'a, image_files::FreshFile, HostRuntime>>;

// The device of an image that is read.
type ReadDisk<'a> = FileDisk<ToldFile<'a, File, HostRuntime>>;

fn print_bytes(rt: &HostRuntime, done: &str, bytes: u64) -> Result<(), Refusal> {
    let mut output = io::writer(rt);
    match writeln!(output, "{done} {bytes}") {
        Ok(()) => Ok(()),
        Err(_) => Err(Refusal::StreamFault),
    }
}

// Reads what an image holds; the exit status if it isn't good.
fn reader_of<'a>(
    rt: &HostRuntime,
    teller: Teller,
    file: File,
    path: &'a str,
    size: u64,
) -> Result<ImageReader<ReadDisk<'a>>, u8>
    ensures { IfOk result (λ reader. ⟦<ImageReader<ReadDisk<'a>> as Source>⟧.block reader ≡ 0) }
{
    let file = ToldFile::new(*rt, file, path, teller.tells_causes(), true);
    match ImageReader::new(rt.alloc(), FileDisk::new(file, size)) {
        Ok(reader) => Ok(reader),
        Err((fault, _disk)) => { Err(check_status(Err(Refusal::from(fault)), &mut rt.stderr())) }
    }
}

/// Gives the bytes of an image to a target, and gives the exit status.
pub fn export_from(
    rt: &HostRuntime,
    teller: Teller,
    path: &str,
    target: &str,
    replaces: bool,
) -> u8 {
    if is_same_file(rt, path, target) {
        let _ = eprintln!(rt; "nbdj: {target} is the image");
        return 1;
    }
    let opened = match open_for_reading(rt, path) {
        Ok(opened) => teller.tell_header(path, opened),
        Err(fault) => return no_file(rt, teller, path, fault),
    };
    let Opened {
        file,
        size,
        length: _,
        locks,
    } = opened;
    let status = match reader_of(rt, teller, file, path, size) {
        Ok(reader) if target == STREAM => export_to_stream(rt, teller, reader),
        Ok(reader) => match export_to_file(rt, teller, reader, target, replaces) {
            Ok(status) => status,
            Err(fault) => no_file(rt, teller, target, fault),
        },
        Err(status) => status,
    };
    let _locks = locks;
    status
}

fn export_to_stream<'a>(rt: &HostRuntime, teller: Teller, reader: ImageReader<ReadDisk<'a>>) -> u8
    requires { ⟦<ImageReader<ReadDisk<'a>> as Source>⟧.block reader ≡ 0 }
{
    let blocks = reader.geometry().blocks;
    let mut target = StreamTarget::new(*rt, rt.stdout(), teller.tells_causes());
    let mut source = ToldSource::new(rt, reader, blocks);
    let exported = export(rt.alloc(), &mut source, blocks, &mut target);
    source.finish();
    let outcome = match exported {
        Ok(()) => target.finish().map_err(TransferFault::from),
        Err(fault) => Err(fault),
    };
    exit_status(told_export(outcome), &mut rt.stderr())
}

// A file that was made for it and doesn't get all bytes is removed.
fn export_to_file<'a>(
    rt: &HostRuntime,
    teller: Teller,
    reader: ImageReader<ReadDisk<'a>>,
    target: &str,
    replaces: bool,
) -> Result<u8, FileFault>
    requires { ⟦<ImageReader<ReadDisk<'a>> as Source>⟧.block reader ≡ 0 }
{
    let blocks = reader.geometry().blocks;
    let wanted = Wanted {
        size: blocks.saturating_mul(BLOCK_BYTES),
        allocated: 0,
        replaces,
    };
    let (file, size) = open_fresh(rt, target, wanted)?;
    let is_new = file.is_new();
    let mut file = FileTarget::new(*rt, file, target, teller.tells_causes());
    let mut source = ToldSource::new(rt, reader, blocks);
    let exported = export(rt.alloc(), &mut source, blocks, &mut file);
    let outcome = match exported {
        Ok(()) => file.finish().map_err(TransferFault::from),
        Err(fault) => Err(fault),
    };
    source.finish();
    let outcome = match told_export(outcome) {
        Ok(()) => print_bytes(rt, "exported", size),
        Err(refusal) => Err(refusal),
    };
    let status = exit_status(outcome, &mut rt.stderr());
    if status != 0 && is_new {
        remove_made(rt, target);
    }
    Ok(status)
}

fn told_export(outcome: Result<(), TransferFault>) -> Result<(), Refusal> {
    match outcome {
        Ok(()) => Ok(()),
        Err(TransferFault::NoMemory) => Err(Refusal::NoMemory),
        Err(TransferFault::Source) => Err(Refusal::DeviceFault),
        Err(TransferFault::Target) => Err(Refusal::StreamFault),
    }
}
