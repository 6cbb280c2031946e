//! The sockets of a server.

use crate::damage::place_of;
use crate::handed;
use crate::lock_guard::LockGuard;
use crate::meter::Meter;
use crate::opening_answers::open_answered;
use crate::second_handle::SecondHandle;
use crate::server_log::{LogLines, ServerLog, ServerWatch, Topic};
use crate::status_socket::StatusSocket;
use crate::teller::Teller;
use crate::watched_file::WatchedFile;
use disk_model::{Disk, FileDisk};
use export::OpenDevice;
use export_model::Mode;
use front_end::{Address, OnFull, Refusal, ServeOptions, ServedName, VERSION};
use header_slots::{Header, read_current};
use image_files::ToldFile;
use image_model::{BLOCK_BYTES, Layout};
use metrics::Setup;
use nbdj_pipe::exit_status;
use negotiation::OfferedName;
use server::{Listener, serve};
use std::fmt::{Display, Write};
use std::fs::{self, File, Permissions};
use std::io::{self, ErrorKind, Read};
use std::net::TcpListener;
use std::os::unix::fs::{FileTypeExt, MetadataExt, PermissionsExt};
use std::os::unix::net::{UnixListener, UnixStream};
use std::rt::Clock;
use std::sync::Wait;
use std::thread::Threads;
use std::time::{Duration, Instant};

// Room for the line that says how a server has ended.
const LAST_LINE: usize = 128;

// Opens a device, serves it at each address, or where there is none at the sockets that were handed over, and gives the exit status. From
// here on no line about the device waits for whoever reads it.
pub fn serve_at<R: Threads + Wait + Clock + Copy + Send + Sync + Drop + 'static>(
    rt: &HostRuntime,
    threads: &R,
    teller: Teller,
    path: &str,
    disk: FileDisk<ToldFile<'_, File, HostRuntime>>,
    header: Option<Header>,
    second_handle: Option<File>,
    guard: Option<&LockGuard<'_>>,
    addresses: &[Address<'_>],
    status: Option<&str>,
    name: ServedName<'_>,
    on_full: OnFull,
    options: ServeOptions,
) -> u8 {
    let Ok(lines) = LogLines::start(rt, threads) else {
        return exit_status(Err(Refusal::NoMemory), &mut rt.stderr());
    };
    let log = ServerLog::new(threads, &lines, path, teller.is_verbose());
    let size = disk.size();
    let outcome = match Name::new(rt, teller, name) {
        Err(refusal) => Err(refusal),
        Ok(name) => {
            let absolute = fs::canonicalize(rt, path).ok();
            let absolute = match &absolute {
                Some(absolute) => absolute.as_path().as_str(),
                None => path,
            };
            let setup = setup_of(path, absolute, header, &name, &options);
            tell_start(log, &setup);
            match status {
                None => serve_device(
                    rt,
                    teller,
                    log,
                    disk,
                    second_handle,
                    guard,
                    addresses,
                    &name,
                    on_full,
                    options,
                ),
                Some(at) => serve_with_status(
                    rt,
                    teller,
                    log,
                    disk,
                    second_handle,
                    guard,
                    at,
                    header,
                    setup,
                    addresses,
                    &name,
                    on_full,
                    options,
                ),
            }
        }
    };
    match &outcome {
        Ok(()) => log.tell(
            Topic::Ended,
            "ended as asked; every answered write is stored",
        ),
        Err(refusal) => say_place(rt, log, size, *refusal),
    }
    let mut last = [0; LAST_LINE];
    let mut room = last.as_mut_slice();
    let exit = exit_status(outcome, &mut room);
    let length = LAST_LINE.saturating_sub(room.len());
    log.finish(last.get(..length).unwrap_or(&[]).trim_ascii_end());
    exit
}

// Tells where the image is damaged, if the refusal says that it is.
fn say_place<R: Wait + Clock>(
    rt: &HostRuntime,
    log: ServerLog<'_, R>,
    size: u64,
    refusal: Refusal,
) {
    let path = log.path();
    if let Ok(file) = File::open(rt, path) {
        if let Some(place) = place_of(rt.alloc(), file, size, refusal) {
            log.say(format_args!("{path}: {place}"));
        }
    }
}

// How the server runs.
fn setup_of<'a>(
    image: &'a str,
    path: &'a str,
    header: Option<Header>,
    name: &'a Name,
    options: &ServeOptions,
) -> Setup<'a> {
    let (blocks, layout) = match header {
        Some(header) => (header.geometry.blocks, header.geometry.layout),
        // It is no image, and isn't served.
        None => (0, Layout::One),
    };
    Setup {
        version: VERSION,
        image,
        path,
        export: name.text.as_str(),
        cache: match options.mode {
            Mode::Writeback => "writeback",
            Mode::Writethrough => "writethrough",
            Mode::Ordered => "ordered",
        },
        size: blocks.saturating_mul(BLOCK_BYTES),
        layout: match layout {
            Layout::One => 1,
            Layout::Two => 2,
        },
        workers: u64::from(options.workers),
        in_flight: u64::from(options.in_flight),
        loss_bytes: options.limits.loss_bytes,
    }
}

// Tells how the server runs.
fn tell_start<R: Wait + Clock>(log: ServerLog<'_, R>, setup: &Setup<'_>) {
    let Setup {
        version,
        path,
        export,
        cache,
        size,
        layout,
        workers,
        in_flight,
        loss_bytes,
        ..
    } = *setup;
    log.tell(
        Topic::Started,
        format_args!(
            "nbdj {version} serves {path} as '{export}': {size} bytes in layout {layout}, {cache}, {workers} workers, {in_flight} in flight, at most {loss_bytes} bytes pending"
        ),
    );
}

// The name by which clients ask for the export.
#[derive(Drop)]
struct Name {
    text: String,
    // Whether it differs from that of each earlier start, and so is told.
    is_fresh: bool,
}

impl Name {
    fn new(rt: &HostRuntime, teller: Teller, name: ServedName<'_>) -> Result<Name, Refusal> {
        let text = name.text;
        let made = if name.is_fresh {
            match random_number(rt) {
                Ok(number) => format!(in rt.alloc(); "{text}-{number}"),
                Err(error) => {
                    teller.tell(RANDOM, format_args!("{error}"));
                    return Err(Refusal::StreamFault);
                }
            }
        } else {
            String::from_str(rt.alloc(), text)
        };
        match made {
            Ok(text) => Ok(Name {
                text,
                is_fresh: name.is_fresh,
            }),
            Err(_) => Err(Refusal::NoMemory),
        }
    }
}

const RANDOM: &str = "/dev/urandom";

// A number that no other start has. A clock may be set back, so it isn't taken from one.
fn random_number(rt: &HostRuntime) -> io::Result<u64> {
    let mut bytes = [0; 8];
    let mut file = File::open(rt, RANDOM)?;
    file.read_exact(&mut bytes)?;
    Ok(u64::from_ne_bytes(bytes))
}

// Serves a device whose figures are told at a socket.
fn serve_with_status<R: Threads + Wait + Clock + Copy + Send + Sync + Drop + 'static>(
    rt: &HostRuntime,
    teller: Teller,
    log: ServerLog<'_, R>,
    disk: FileDisk<ToldFile<'_, File, HostRuntime>>,
    second_handle: Option<File>,
    guard: Option<&LockGuard<'_>>,
    status: &str,
    header: Option<Header>,
    setup: Setup<'_>,
    addresses: &[Address<'_>],
    name: &Name,
    on_full: OnFull,
    options: ServeOptions,
) -> Result<(), Refusal> {
    let Ok(meter) = Meter::new(rt.alloc(), rt, header) else {
        return Err(Refusal::NoMemory);
    };
    let socket = open_status(rt, teller, setup, status, &meter)?;
    let file = SocketFile::new(rt, status);
    let log = log.with_status(&socket);
    let outcome = serve_device(
        rt,
        teller,
        log,
        disk,
        second_handle,
        guard,
        addresses,
        name,
        on_full,
        options,
    );
    file.remove(rt);
    outcome
}

// The file of a socket that was made. Only this one is removed at the end: another server may have made its own there since.
#[derive(Drop)]
struct SocketFile<'a> {
    path: &'a str,
    made: Option<(u64, u64)>,
}

impl<'a> SocketFile<'a> {
    fn new(rt: &HostRuntime, path: &'a str) -> SocketFile<'a> {
        SocketFile {
            path,
            made: identity_of(rt, path),
        }
    }

    // If it can't be removed, the next server replaces it.
    fn remove(&self, rt: &HostRuntime) {
        if self.made.is_some() && self.made == identity_of(rt, self.path) {
            let _ = fs::remove_file(rt, self.path);
        }
    }
}

// The device and the number of the file that stands there, if there is one.
fn identity_of(rt: &HostRuntime, path: &str) -> Option<(u64, u64)> {
    let metadata = fs::symlink_metadata(rt, path).ok()?;
    Some((metadata.dev(), metadata.ino()))
}

// The socket where figures are told, to nobody but root and the server's own user.
fn open_status<'a>(
    rt: &HostRuntime,
    teller: Teller,
    setup: Setup<'a>,
    path: &str,
    meter: &'a Meter,
) -> Result<StatusSocket<'a>, Refusal> {
    let opened = match bind_unix(rt, path, Some(0o600)) {
        Ok(listener) => StatusSocket::new(rt.alloc(), listener, setup, meter),
        Err(error) => Err(error),
    };
    match opened {
        Ok(socket) => Ok(socket),
        Err(error) => Err(no_socket(teller, path, &error)),
    }
}

// Opens the device and serves it, with a log.
fn serve_device<'a, R: Threads + Wait + Clock + Copy + Send + Sync + Drop + 'static>(
    rt: &HostRuntime,
    teller: Teller,
    log: ServerLog<'a, R>,
    disk: FileDisk<ToldFile<'a, File, HostRuntime>>,
    second_handle: Option<File>,
    guard: Option<&'a LockGuard<'a>>,
    addresses: &[Address<'_>],
    name: &Name,
    on_full: OnFull,
    options: ServeOptions,
) -> Result<(), Refusal> {
    let threads = log.threads();
    let watch = match guard {
        Some(guard) => Some(guard.watch),
        None => None,
    };
    let second_handle = match second_handle {
        Some(file) => Some(SecondHandle {
            file: WatchedFile {
                file,
                rt: threads,
                watch,
                syncs: None,
                opening: None,
                full: None,
            },
            log,
        }),
        None => None,
    };
    let size = disk.size();
    let waits = on_full == OnFull::Wait;
    let file = disk.into_file().tell_by(log);
    let file = WatchedFile {
        file: if waits {
            file.with_full_retried()
        } else {
            file
        },
        rt: threads,
        watch,
        syncs: match log.status() {
            Some(socket) => Some(&socket.meter.syncs),
            None => None,
        },
        opening: match log.status() {
            Some(socket) => Some(&socket.meter.opening),
            None => None,
        },
        full: if waits { Some(log) } else { None },
    };
    let disk = FileDisk::new(file, size);
    let opened = match log.status() {
        Some(socket) => open_answered(rt, log, socket, disk, second_handle),
        None => open_device(rt, log, disk, second_handle),
    };
    match opened {
        Ok(device) => listen(
            rt, threads, teller, log, guard, device, addresses, name, options,
        ),
        Err(refusal) => Err(refusal),
    }
}

/// The device of a server.
pub type ServedDisk<'a, R> = FileDisk<WatchedFile<'a, ToldFile<'a, File, ServerLog<'a, R>>, R>>;

/// Opens a device, and tells how many commands that has recovered.
pub fn open_device<'a, 'b, R: Wait + Clock>(
    rt: &HostRuntime,
    log: ServerLog<'b, R>,
    disk: ServedDisk<'a, R>,
    second_handle: Option<SecondHandle<'b, R>>,
) -> Result<OpenDevice<ServedDisk<'a, R>, SecondHandle<'b, R>>, Refusal> {
    let mut disk = disk;
    let base = if log.is_verbose() {
        base_of(&mut disk)
    } else {
        None
    };
    let start = Instant::now(rt);
    match OpenDevice::open(rt.alloc(), disk, second_handle) {
        Ok(device) => {
            if let (Some(base), Ok(start)) = (base, start) {
                let commands = device.keeper.count().saturating_sub(base);
                log.tell_recovery(commands, start.elapsed(rt).unwrap_or(Duration::ZERO));
            }
            Ok(device)
        }
        Err((fault, _disk)) => Err(Refusal::from(fault)),
    }
}

// The number of the last command that the image holds without its journal.
fn base_of<D: Disk>(disk: &mut D) -> Option<u64> {
    let (header, _) = read_current(disk).ok()?;
    Some(header.base)
}

// Listens, and serves the clients that arrive.
fn listen<R: Threads + Wait + Clock + Copy + Send + Sync + Drop + 'static>(
    rt: &HostRuntime,
    threads: &R,
    teller: Teller,
    log: ServerLog<'_, R>,
    guard: Option<&LockGuard<'_>>,
    device: OpenDevice<ServedDisk<'_, R>, SecondHandle<'_, R>>,
    addresses: &[Address<'_>],
    name: &Name,
    options: ServeOptions,
) -> Result<(), Refusal> {
    let Some(offered) = OfferedName::new(name.text.as_bytes()) else {
        return Err(Refusal::StreamFault);
    };
    let mut made = Made {
        rt: *rt,
        listeners: Vec::new(rt.alloc()),
        said: String::new(rt.alloc()),
        files: Vec::new(rt.alloc()),
    };
    let opened = if addresses.is_empty() {
        tell_fresh_name(log, name);
        made.take_handed(teller)
    } else {
        made.open_all(teller, addresses)
            .and_then(|()| made.tell_name(name))
    };
    let Made {
        listeners,
        said,
        files,
        ..
    } = made;
    let outcome = match opened {
        Ok(()) => {
            let wanted = listeners.len().saturating_add(options.workers as usize);
            tell_few_descriptors(rt, log, wanted.saturating_add(SPARE_DESCRIPTORS));
            let watch = ServerWatch {
                host: *rt,
                log,
                announcement: said.as_str(),
                name: name.text.as_bytes(),
                guard,
            };
            let (outcome, _disk) = serve(
                threads,
                rt.alloc(),
                device,
                listeners,
                rt.stdin(),
                options,
                offered,
                watch,
            );
            outcome
        }
        Err(refusal) => Err(refusal),
    };
    for file in files {
        file.remove(rt);
    }
    outcome
}

// The descriptors that a server may want beside those of its sockets and its clients: those of who asks for figures, and one to spare.
const SPARE_DESCRIPTORS: usize = 5;

// The errors of a system that has no descriptor left, for the process or at all.
const NO_DESCRIPTOR: [i32; 2] = [24, 23];

// Tells if fewer descriptors are free than the server may want.
fn tell_few_descriptors<R: Wait + Clock>(rt: &HostRuntime, log: ServerLog<'_, R>, wanted: usize) {
    let mut taken = Vec::new(rt.alloc());
    for _ in 0..wanted {
        match File::open(rt, "/dev/null") {
            Ok(file) => {
                if taken.push(file).is_err() {
                    return;
                }
            }
            Err(error)
                if error
                    .raw_os_error()
                    .is_some_and(|code| NO_DESCRIPTOR.contains(&code)) => {
                break;
            }
            Err(_) => return,
        }
    }
    let free = taken.len();
    drop(taken);
    if free < wanted {
        let path = log.path();
        log.say(format_args!(
            "{path}: {free} file descriptors are free, and {wanted} may be wanted: see ulimit -n"
        ));
    }
}

// Tells a name that nobody can know on standard error, because nothing goes to standard output.
fn tell_fresh_name<R: Wait + Clock>(log: ServerLog<'_, R>, name: &Name) {
    if name.is_fresh {
        let path = log.path();
        log.say(format_args!("{path}: export {}", name.text));
    }
}

// Sockets at which clients arrive.
#[derive(Drop)]
struct Made<'a> {
    rt: HostRuntime,
    listeners: Vec<Listener>,
    // A line for each of them, which says where it listens, and one for a name that nobody can know.
    said: String,
    // The files of those that were made.
    files: Vec<SocketFile<'a>>,
}

impl<'a> Made<'a> {
    // Makes a socket at each address.
    fn open_all(&mut self, teller: Teller, addresses: &[Address<'a>]) -> Result<(), Refusal> {
        for address in addresses {
            self.open(teller, *address)?;
        }
        Ok(())
    }

    fn open(&mut self, teller: Teller, address: Address<'a>) -> Result<(), Refusal> {
        let rt = &self.rt;
        match address {
            Address::Tcp(address) => match bind_tcp(rt, address) {
                Ok((listener, port)) => self.add(Listener::from(listener), port),
                Err(error) => Err(no_socket(teller, address, &error)),
            },
            Address::Unix { path, mode } => match bind_unix(rt, path, mode) {
                Ok(listener) => {
                    let file = SocketFile::new(rt, path);
                    self.files.push(file).ok().ok_or(Refusal::NoMemory)?;
                    self.add(Listener::from(listener), path)
                }
                Err(error) => Err(no_socket(teller, path, &error)),
            },
        }
    }

    // Takes the sockets that the process was started with. Whoever made them knows where they are, and standard output may be the
    // caller's: nothing is printed.
    fn take_handed(&mut self, teller: Teller) -> Result<(), Refusal> {
        for at in 0..handed::count(&self.rt) {
            match handed::take(at) {
                Ok(listener) => self.push(listener)?,
                Err(error) => {
                    return Err(no_socket(teller, "LISTEN_FDS", &error));
                }
            }
        }
        Ok(())
    }

    // Has the name told after the addresses if nobody can know it.
    fn tell_name(&mut self, name: &Name) -> Result<(), Refusal> {
        if name.is_fresh && writeln!(self.said, "export {}", name.text).is_err() {
            return Err(Refusal::NoMemory);
        }
        Ok(())
    }

    fn add<T: Display + Drop>(&mut self, listener: Listener, said: T) -> Result<(), Refusal> {
        if writeln!(self.said, "listening {said}").is_err() {
            return Err(Refusal::NoMemory);
        }
        self.push(listener)
    }

    fn push(&mut self, listener: Listener) -> Result<(), Refusal> {
        self.listeners.push(listener).ok().ok_or(Refusal::NoMemory)
    }
}

// Why nobody can arrive at an address.
fn no_socket(teller: Teller, address: &str, error: &io::Error) -> Refusal {
    teller.tell(address, format_args!("{error}"));
    Refusal::StreamFault
}

// The port of an address that says none: the one that is registered for the protocol.
const USUAL_PORT: u16 = 10809;

// A socket at an address, and the port that it has.
fn bind_tcp(rt: &HostRuntime, address: &str) -> io::Result<(TcpListener, u16)> {
    let listener = match host_alone(address) {
        Some(host) => TcpListener::bind(rt, (host, USUAL_PORT))?,
        None => TcpListener::bind(rt, address)?,
    };
    let port = listener.local_addr()?.port();
    Ok((listener, port))
}

// The host of an address that says no port: it has no colon, or more than one outside brackets.
fn host_alone(address: &str) -> Option<&str> {
    if let Some(inside) = address.strip_prefix('[') {
        return inside.strip_suffix(']');
    }
    let colon = address.find(':');
    if address.is_empty() || (colon.is_some() && colon == address.rfind(':')) {
        return None;
    }
    Some(address)
}

// A socket with a file, which takes the place of one that nobody listens on, and has this mode where one is said.
fn bind_unix(rt: &HostRuntime, path: &str, mode: Option<u32>) -> io::Result<UnixListener> {
    let listener = match UnixListener::bind(rt, path) {
        Err(error) if error.kind() == ErrorKind::AddrInUse && is_abandoned(rt, path) => {
            fs::remove_file(rt, path)?;
            UnixListener::bind(rt, path)?
        }
        bound => bound?,
    };
    if let Some(mode) = mode {
        if let Err(error) = fs::set_permissions(rt, path, Permissions::from_mode(mode)) {
            let _ = fs::remove_file(rt, path);
            return Err(error);
        }
    }
    Ok(listener)
}

// Whether a file is a socket that nobody listens on.
fn is_abandoned(rt: &HostRuntime, path: &str) -> bool {
    let Ok(metadata) = fs::symlink_metadata(rt, path) else {
        return false;
    };
    if !metadata.file_type().is_socket() {
        return false;
    }
    match UnixStream::connect(rt, path) {
        Ok(_) => false,
        Err(error) => error.kind() == ErrorKind::ConnectionRefused,
    }
}
