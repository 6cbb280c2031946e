//! Standard error, to which it is told where an image is damaged before the line of a refusal that says so.

use crate::damage::{FoundGroup, GroupWalk, place_of};
use disk_model::FileDisk;
use front_end::Refusal;
use header_slots::read_current;
use std::fs::File;
use std::io::{self, Write};

// The most bytes of a line that is looked at.
const LONGEST: usize = 64;

// The refusals of damage.
const OF_DAMAGE: [Refusal; 3] = [Refusal::DamagedGroup, Refusal::BadMap, Refusal::BadHeader];

/// Takes the lines about the image at a path.
#[derive(Drop)]
pub struct PlacedErrors<'a> {
    rt: HostRuntime,
    path: &'a str,
    size: u64,
    // Whether it is told why something can't be done.
    tells: bool,
    // The beginning of a line that isn't whole yet.
    line: [u8; LONGEST],
    length: usize,
}

impl<'a> PlacedErrors<'a> {
    /// Of the image in this file, which has this many bytes.
    pub fn new(rt: &HostRuntime, path: &'a str, size: u64, tells: bool) -> PlacedErrors<'a> {
        PlacedErrors {
            rt: *rt,
            path,
            size,
            tells,
            line: [0; LONGEST],
            length: 0,
        }
    }

    // Writes what is held.
    fn pass_on(&mut self) -> io::Result<()> {
        let held = self.line.get(..self.length).unwrap_or(&[]);
        let done = self.rt.stderr().write_all(held);
        self.length = 0;
        done
    }

    // Tells the place, if the line that is held says that the image is damaged.
    fn tell_place(&self) {
        let line = self.line.get(..self.length).unwrap_or(&[]);
        for refusal in OF_DAMAGE {
            let Ok(text) = format!(in self.rt.alloc(); "nbdj: {refusal} ({})\n", refusal.number())
            else {
                return;
            };
            if text.as_bytes() == line {
                tell_place(&self.rt, self.path, self.size, refusal);
            }
        }
    }
}

impl<'a> Write for PlacedErrors<'a> {
    fn write(&mut self, buf: &[u8]) -> io::Result<usize> {
        for byte in buf {
            if let Some(place) = self.line.get_mut(self.length) {
                *place = *byte;
                self.length = self.length.saturating_add(1);
            }
            if *byte == b'\n' {
                if self.tells {
                    self.tell_place();
                }
                self.pass_on()?;
            } else if self.length >= LONGEST {
                self.pass_on()?;
            }
        }
        Ok(buf.len())
    }

    fn flush(&mut self) -> io::Result<()> {
        self.pass_on()
    }
}

/// Tells where the image at this path is damaged, if that can be found.
pub fn tell_place(rt: &HostRuntime, path: &str, size: u64, refusal: Refusal) {
    let Ok(file) = File::open(rt, path) else {
        return;
    };
    if let Some(place) = place_of(rt.alloc(), file, size, refusal) {
        // If it can't be written nobody listens.
        let _ = eprintln!(rt; "nbdj: {path}: {place}");
    }
}

/// Prints each group of the journal, and after a damaged one what would be lost; the exit status, which is this one if all can be printed.
pub fn print_groups(rt: &HostRuntime, file: File, size: u64, status: u8) -> u8 {
    let mut disk = FileDisk::new(file, size);
    let Ok((header, _)) = read_current(&mut disk) else {
        return status;
    };
    let file = disk.into_file();
    let mut walk = GroupWalk::new(&file, header);
    let mut output = io::writer(rt);
    for _ in 0..u64::MAX {
        let found = match walk.next_group() {
            Ok(Some(found)) => found,
            Ok(None) => break,
            Err(error) => {
                let _ = eprintln!(rt; "nbdj: the journal can't be read: {error}");
                return FAULT;
            }
        };
        if print_group(&mut output, found).is_err() {
            return FAULT;
        }
    }
    match output.flush() {
        Ok(()) => status,
        Err(_) => FAULT,
    }
}

// The exit status of a fault.
const FAULT: u8 = 1;

fn print_group<W: Write>(output: &mut W, found: FoundGroup) -> io::Result<()> {
    let FoundGroup {
        area,
        number,
        at,
        first,
        count,
        bytes,
        broken,
    } = found;
    match broken {
        Some(rule) => writeln!(
            output,
            "damaged: area {area}, group {number} at {at}: {rule}; writes from number {first} on would be lost"
        ),
        None => writeln!(
            output,
            "area {area}, group {number} at {at}: {count} writes from number {first}, {bytes} bytes"
        ),
    }
}
