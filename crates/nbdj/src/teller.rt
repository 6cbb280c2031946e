//! What `--verbose` tells: why something can't be done.

use disk_model::FileDisk;
use front_end::{Invocation, Plan};
use header_slots::{HeaderFault, read_current};
use image_files::{FileFault, Holder, Opened, header_of};
use std::fmt::{self, Display, Formatter};
use std::io::IsTerminal;

/// What is told beside the texts that are always there.
#[derive(Clone, Copy)]
pub struct Teller {
    rt: HostRuntime,
    is_verbose: bool,
    tells_causes: bool,
}

impl Teller {
    /// What is told of this invocation: why something can't be done by a server always, else to a terminal or where `--verbose` asks for it.
    pub fn new(rt: &HostRuntime, invocation: &Invocation<'_>) -> Teller {
        let is_verbose = invocation.is_verbose;
        let serves = matches!(invocation.plan, Plan::Serve { .. });
        Teller {
            rt: *rt,
            is_verbose,
            tells_causes: is_verbose || serves || rt.stderr().is_terminal(),
        }
    }

    /// Whether it is told what happens.
    pub fn is_verbose(&self) -> bool {
        self.is_verbose
    }

    /// Whether it is told why something can't be done.
    pub fn tells_causes(&self) -> bool {
        self.tells_causes
    }

    /// Tells why something can't be done with a subject, as a path or an address.
    pub fn tell<S: Display + Drop, T: Display + Drop>(&self, subject: S, text: T) {
        if self.tells_causes {
            // If it can't be written nobody listens.
            let _ = eprintln!(self.rt; "nbdj: {subject}: {text}");
        }
    }

    /// Tells why there is no file to work on.
    pub fn tell_fault(&self, path: &str, fault: &FileFault) {
        match fault {
            FileFault::Unopened(error) | FileFault::Unlocked(error) => {
                self.tell(path, format_args!("{error}"));
            }
            FileFault::Unfit => self.tell(path, "neither a file nor a block device"),
            FileFault::Short => self.tell(path, "the block device has fewer bytes than the image"),
            FileFault::InUse(holder) => self.tell(path, use_of(*holder)),
            FileFault::HasData(content) => self.tell(path, format_args!("it has {content}")),
            FileFault::NoMemory | FileFault::IsOutput | FileFault::IsErrors => {}
        }
    }

    /// Tells that the lock of a file is waited for. Nobody else would tell why nothing happens.
    pub fn tell_wait(&self, path: &str) {
        // If it can't be written nobody listens.
        let _ = eprintln!(self.rt; "nbdj: {path}: another process has locked it; waiting for it");
    }

    /// Tells why a file that was opened can't be an image.
    pub fn tell_header(&self, path: &str, opened: Opened) -> Opened {
        if !self.tells_causes {
            return opened;
        }
        let Opened {
            file,
            size,
            length,
            locks,
        } = opened;
        let (file, header) = header_of(file);
        let mut disk = FileDisk::new(file, size);
        match header.map(|header| header.geometry.device_bytes()) {
            Some(counted) if counted > length => {
                let missing = Grouped(counted - length);
                self.tell(
                    path,
                    format_args!("{missing} bytes shorter than its header says"),
                );
            }
            Some(counted) if counted < size => {
                let beyond = Grouped(size - counted);
                self.tell(
                    path,
                    format_args!("{beyond} bytes longer than its header says"),
                );
            }
            Some(_) => {}
            None => match read_current(&mut disk) {
                Err(HeaderFault::NoHeader) => {
                    self.tell(path, "not an image of nbdj; see nbdj format");
                }
                Err(HeaderFault::BadHeader) => {
                    self.tell(path, "its header isn't one that nbdj has written");
                }
                _ => {}
            },
        }
        Opened {
            file: disk.into_file(),
            size,
            length,
            locks,
        }
    }
}

fn use_of(holder: Holder) -> &'static str {
    match holder {
        Holder::Process => "another process has locked it",
        Holder::Mount => "a file system on it is mounted",
        Holder::Swap => "the system swaps to it",
        Holder::Device => "another device stands on it",
    }
}

// A number with a comma before each three digits.
#[derive(Clone, Copy)]
struct Grouped(u64);

impl Display for Grouped {
    fn fmt<W: fmt::Write>(&self, f: &mut Formatter<W>) -> fmt::Result {
        let mut has_begun = false;
        for exponent in (0..7u32).rev() {
            let part = self
                .0
                .checked_div(1000u64.saturating_pow(exponent))
                .unwrap_or(0)
                % 1000;
            if has_begun {
                write!(f, ",{part:03}")?;
            } else if part > 0 || exponent == 0 {
                write!(f, "{part}")?;
                has_begun = true;
            }
        }
        Ok(())
    }
}
