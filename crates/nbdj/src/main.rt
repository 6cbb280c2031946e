//! The program `nbdj`: the command line, files and streams round the plans of `nbdj_pipe`.
#![tactic(auto)]

ghost use Rattle.std.specs.Prelude.{ℕ};
ghost use Rattle.nbdj_pipe.specs.Plan.{Suits};

mod damage;
mod device_watch;
mod full_disk;
mod handed;
mod lock_guard;
mod meter;
mod notify;
mod opening;
mod opening_answers;
mod opening_tally;
mod placed_errors;
mod second_handle;
mod server_log;
mod serving;
mod status_client;
mod status_socket;
mod teller;
mod transfers;
mod watched_file;

use crate::device_watch::DeviceWatch;
use crate::opening::Opening;
use crate::placed_errors::{PlacedErrors, print_groups};
use crate::server_log::Seconds;
use crate::serving::serve_at;
use crate::status_client::ask;
use crate::teller::Teller;
use crate::transfers::{export_from, import_to};
use clap::error::ErrorKind;
use command_line::{address_fault, last_given, line};
use disk_model::{Disk, FileDisk};
use front_end::{
    Address, Course, FormatOptions, Invocation, OnFull, Plan, Refusal, ServeOptions, ServedName,
};
use header_slots::Header;
use image_files::{
    ClosedStreams, FileFault, Locks, Opened, ToldFile, Wanted, header_of, open_for_reading,
    open_fresh, remove_made, try_fresh,
};
use image_model::{BLOCK_BYTES, Geometry};
use nbdj_pipe::{exit_status, perform};
use nbdj_sweep::{faults, sweep};
use script_runner::script;
use std::alloc::{AllocError, Global};
use std::env::{Env, FillError};
use std::fs::File;
use std::io::Write;
use std::process::ExitCode;
use std::rt::Clock;
use std::sync::{Arc, Wait};
use std::thread::{self, Threads};
use std::time::Duration;
use std::{env, io, str};

fn main(rt: HostRuntime) -> ExitCode {
    // Before anything else is opened, and kept to the end.
    let Ok(_streams) = ClosedStreams::fill(&rt) else {
        let _ = eprintln!(rt; "nbdj: cannot open /dev/null");
        return ExitCode::from(1);
    };
    let status = start(&rt, &rt).unwrap_or_else(|_| no_memory(&rt));
    ExitCode::from(status)
}

// Reads the command line and carries out its plan; the exit status. The runtime may start threads in `main` alone, which
// therefore hands it out a second time for what may.
fn start<R>(rt: &HostRuntime, threads: &R) -> anyhow::Result<u8>
where
    R: Threads + Wait + Clock + Copy + Send + Sync + Drop + 'static,
{
    let alloc = rt.alloc();
    let arguments: Vec<String> = match env::args(rt) {
        Ok(arguments) => arguments.collect(alloc)?,
        Err(error) if error.kind() == io::ErrorKind::OutOfMemory => return Err(error.into()),
        Err(_) => return Ok(refuse_bytes(rt)),
    };
    if let Some((path, limit)) = watched_path(alloc, &arguments)? {
        return run_watched(rt, threads, arguments, path, limit);
    }
    run_words(rt, threads, &arguments, None)
}

// The most bytes that are printed of an argument.
const MOST_SHOWN: usize = 4_096;

// Tells which argument isn't UTF-8, and gives the exit status. Nothing was done yet.
fn refuse_bytes(rt: &HostRuntime) -> u8 {
    let mut buffer = [0; MOST_SHOWN];
    let mut errors = rt.stderr();
    let _ = errors.write_all(b"nbdj: ");
    for at in 0..usize::MAX {
        let length = match rt.arg(at, &mut buffer) {
            Ok(length) => length,
            Err(FillError::TooLong) => continue,
            Err(FillError::NotPresent) => break,
        };
        let shown = buffer.get(..length).unwrap_or(&[]);
        if str::from_utf8(shown).is_err() {
            let _ = errors.write_all(shown);
            break;
        }
    }
    // If it can't be written, the status alone tells.
    let _ = errors.write_all(b" isn't UTF-8\n");
    2
}

// The words of the command line, of which the last use of each option counts.
fn words_of<'a>(alloc: Global, arguments: &'a [String]) -> Result<Vec<&'a str>, AllocError> {
    let words: Vec<&str> = arguments.iter().map(|word| word.as_str()).collect(alloc)?;
    last_given(alloc, &words)
}

// The path of the device that is watched while the command line is carried out, and how long a call of it may take; None where none is.
fn watched_path(
    alloc: Global,
    arguments: &[String],
) -> Result<Option<(String, Option<Duration>)>, AllocError> {
    let words = words_of(alloc, arguments)?;
    let invocation = match line(alloc, &words) {
        Ok(invocation) => invocation,
        Err(fault) if fault.kind() == ErrorKind::OutOfMemory => return Err(AllocError),
        // What is wrong with it is told where it is carried out.
        Err(_) => return Ok(None),
    };
    match &invocation.plan {
        Plan::Serve { path, options, .. } => {
            let limits = options.limits;
            if limits.device().is_none() && limits.check().is_none() {
                return Ok(None);
            }
            Ok(Some((String::from_str(alloc, path)?, limits.device())))
        }
        _ => Ok(None),
    }
}

// Carries out the command line in a thread of its own. If a call of the device takes too long, `main` returns, and that ends all threads.
fn run_watched<R>(
    rt: &HostRuntime,
    threads: &R,
    arguments: Vec<String>,
    path: String,
    limit: Option<Duration>,
) -> anyhow::Result<u8>
where
    R: Threads + Wait + Clock + Copy + Send + Sync + Drop + 'static,
{
    let watch = Arc::new(rt.alloc(), DeviceWatch::new(limit))?;
    let (host, own, its) = (*rt, *threads, Arc::try_clone(&watch)?);
    let work = move || {
        let status = run_words(&host, &own, &arguments, Some(&its)).unwrap_or_else(|_| no_memory(
            &host,
        ));
        its.finish(&own, status);
    };
    if thread::spawn(threads, work).is_err() {
        return Ok(no_memory(rt));
    }
    if let Some(status) = watch.wait(threads) {
        return Ok(status);
    }
    tell_late(rt, threads, &watch, path, limit)?;
    Ok(1)
}

// Tells that a call of the device takes too long. A thread does it, so that the end doesn't wait for a reader.
fn tell_late<R>(
    rt: &HostRuntime,
    threads: &R,
    watch: &Arc<DeviceWatch, Global>,
    path: String,
    limit: Option<Duration>,
) -> Result<(), AllocError>
where
    R: Threads + Wait + Clock + Copy + Send + Sync + Drop + 'static,
{
    let limit = Seconds(limit.unwrap_or(Duration::ZERO));
    let (host, own, its) = (*rt, *threads, Arc::try_clone(watch)?);
    watch.add_task(threads);
    let tell = move || {
        let _ = eprintln!(host; "nbdj: {path}: a call of the device has taken longer than {limit}");
        let _status = exit_status(Err(Refusal::DeviceFault), &mut host.stderr());
        its.finish_task(&own);
    };
    if thread::spawn(threads, tell).is_ok() {
        watch.wait_for_tasks(threads);
    }
    Ok(())
}

// Carries out the plan of a command line, whose device is watched where there is a watch; the exit status.
fn run_words<'a, R>(
    rt: &'a HostRuntime,
    threads: &'a R,
    arguments: &'a [String],
    watch: Option<&'a DeviceWatch>,
) -> anyhow::Result<u8>
where
    R: Threads + Wait + Clock + Copy + Send + Sync + Drop + 'static,
{
    let alloc = rt.alloc();
    let words = words_of(alloc, arguments)?;
    match line(alloc, &words) {
        Ok(invocation) => Ok(run(rt, threads, invocation, watch)),
        Err(fault) if fault.kind() == ErrorKind::OutOfMemory => Ok(no_memory(rt)),
        Err(fault) => {
            // If not even that can be written, the status alone tells.
            let _ = fault.print(rt);
            Ok(if fault.use_stderr() { 2 } else { 0 })
        }
    }
}

fn no_memory(rt: &HostRuntime) -> u8 {
    let _ = eprintln!(rt; "nbdj: no memory (0)");
    1
}

// Carries out the plan, and gives the exit status. The locks on a device's file are held to the end.
fn run<'a, R>(
    rt: &'a HostRuntime,
    threads: &'a R,
    invocation: Invocation<'a>,
    watch: Option<&'a DeviceWatch>,
) -> u8
where
    R: Threads + Wait + Clock + Copy + Send + Sync + Drop + 'static,
{
    let teller = Teller::new(rt, &invocation);
    let opening = Opening {
        rt,
        threads,
        teller,
        path: "",
        waits_for_lock: invocation.waits_for_lock,
        until_eof: false,
        watch,
    };
    match &invocation.plan {
        Plan::Format {
            path,
            geometry,
            options,
        } => format(rt, teller, path, *geometry, *options),
        Plan::Import {
            source,
            path,
            sizes,
            options,
        } => import_to(rt, teller, source, path, *sizes, *options),
        Plan::Export {
            path,
            target,
            replaces,
        } => export_from(rt, teller, path, target, *replaces),
        Plan::Serve {
            path,
            addresses,
            status,
            name,
            options,
        } => {
            let has_sockets = handed::count(rt) > 0;
            if has_sockets != addresses.is_empty() {
                let _ = address_fault(rt.alloc(), has_sockets).print(rt);
                return 2;
            }
            let opening = Opening {
                path,
                until_eof: options.until_eof,
                ..opening
            };
            let on_full = invocation.on_full;
            open_and_serve(&opening, addresses, *status, *name, on_full, *options)
        }
        Plan::Pipe { path, .. } | Plan::Recover { path, .. } | Plan::Upgrade { path } => {
            let opening = Opening { path, ..opening };
            match opening.open() {
                Ok(Some(opened)) => run_opened(rt, teller, &invocation.plan, path, opened),
                Ok(None) => 0,
                Err(fault) => no_file(rt, teller, path, fault),
            }
        }
        Plan::Check { path, is_deep, .. } => {
            match open_for_reading(rt, path) {
                Ok(opened) => {
                    let opened = teller.tell_header(path, opened);
                    let again = opened.file.try_clone();
                    let size = opened.size;
                    let status = run_opened(rt, teller, &invocation.plan, path, opened);
                    match again {
                        Ok(file) if *is_deep => print_groups(rt, file, size, status),
                        _ => status,
                    }
                }
                Err(fault) => no_file(rt, teller, path, fault),
            }
        }
        Plan::Status { socket, form } => ask(rt, threads, socket, *form),
        Plan::Rehearse { course } => run_script(rt, *course),
        Plan::Refuse { path, refusal } => match try_fresh(rt, path) {
            Ok(()) => exit_status(Err(*refusal), &mut rt.stderr()),
            Err(fault) => no_file(rt, teller, path, fault),
        },
    }
}

// Makes an image of a file. One that was made for it and doesn't become an image is removed.
fn format(
    rt: &HostRuntime,
    teller: Teller,
    path: &str,
    geometry: Geometry,
    options: FormatOptions,
) -> u8 {
    let wanted = Wanted {
        size: geometry.device_bytes(),
        allocated: allocated_of(geometry, options),
        replaces: options.replaces,
    };
    match open_fresh(rt, path, wanted) {
        Ok((file, size)) => {
            let is_new = file.is_new();
            let file = ToldFile::new(*rt, file, path, teller.tells_causes(), false);
            let plan = Plan::Format {
                path,
                geometry,
                options,
            };
            let status = run_on(rt, teller, &plan, path, size, FileDisk::new(file, size));
            if status != 0 && is_new {
                remove_made(rt, path);
            }
            status
        }
        Err(fault) => no_file(rt, teller, path, fault),
    }
}

// How many of the first bytes are allocated: where not all are, headers, journal and maps, so that no write of those lacks space later.
fn allocated_of(geometry: Geometry, options: FormatOptions) -> u64 {
    let size = geometry.device_bytes();
    if options.preallocates {
        return size;
    }
    size.saturating_sub(geometry.blocks.saturating_mul(BLOCK_BYTES))
}

// Carries out the plan on the file of a device.
fn run_opened(rt: &HostRuntime, teller: Teller, plan: &Plan<'_>, path: &str, opened: Opened) -> u8
    requires { (extent : ℕ) → Suits plan.now extent }
{
    let size = opened.size;
    let (disk, _locks, _header) = disk_of(rt, teller, opened, path);
    run_on(rt, teller, plan, path, size, disk)
}

// Opens a device and serves it.
fn open_and_serve<R>(
    opening: &Opening<'_, R>,
    addresses: &[Address<'_>],
    status: Option<&str>,
    name: ServedName<'_>,
    on_full: OnFull,
    options: ServeOptions,
) -> u8
where
    R: Threads + Wait + Clock + Copy + Send + Sync + Drop + 'static,
{
    let Opening {
        rt,
        threads,
        teller,
        path,
        ..
    } = *opening;
    let opened = match opening.open() {
        Ok(Some(opened)) => opened,
        Ok(None) => return 0,
        Err(fault) => return no_file(rt, teller, path, fault),
    };
    let guard = match opening.guard_of(&opened, options.limits.check()) {
        Ok(guard) => guard,
        Err(fault) => return no_file(rt, teller, path, fault),
    };
    // If the system has no second handle left reads wait for the first one.
    let second_handle = opened.file.try_clone().ok();
    let (disk, _locks, header) = disk_of(rt, teller, opened, path);
    serve_at(
        rt,
        threads,
        teller,
        path,
        disk,
        header,
        second_handle,
        guard.as_ref(),
        addresses,
        status,
        name,
        on_full,
        options,
    )
}

// The device of a file that was opened, the locks on what else names it, and its header if it is an image.
fn disk_of<'a>(
    rt: &HostRuntime,
    teller: Teller,
    opened: Opened,
    path: &'a str,
) -> (
    FileDisk<ToldFile<'a, File, HostRuntime>>,
    Locks,
    Option<Header>,
) {
    let Opened {
        file,
        size,
        length: _,
        locks,
    } = opened;
    let (file, header) = header_of(file);
    let mut file = ToldFile::new(*rt, file, path, teller.tells_causes(), true);
    if let Some(header) = &header {
        file.tell_copying(rt, &header.geometry);
    }
    (FileDisk::new(file, size), locks, header)
}

// Carries out the plan on its device.
fn run_on<D: Disk + Drop>(
    rt: &HostRuntime,
    teller: Teller,
    plan: &Plan<'_>,
    path: &str,
    size: u64,
    disk: D,
) -> u8
    requires { Suits plan.now (D.extent disk) }
{
    let mut input = rt.reader();
    let mut output = io::writer(rt);
    let mut errors = PlacedErrors::new(rt, path, size, teller.tells_causes());
    let (status, _disk) = perform(rt.alloc(), plan, disk, &mut input, &mut output, &mut errors);
    status
}

// The exit status where something else works on the file.
const IN_USE: u8 = 4;

// Tells why there is no file to work on, and gives the exit status.
fn no_file(rt: &HostRuntime, teller: Teller, path: &str, fault: FileFault) -> u8 {
    teller.tell_fault(path, &fault);
    // If not even that can be written, the status alone tells.
    let _ = match fault {
        FileFault::Unopened(_) | FileFault::Unfit | FileFault::Short => eprintln!(rt;
            "nbdj: cannot open {path}"
        ),
        FileFault::InUse(_) => {
            let _ = eprintln!(rt; "nbdj: {path} is in use");
            return IN_USE;
        }
        FileFault::HasData(_) => eprintln!(rt; "nbdj: {path} holds data, which --force replaces"),
        FileFault::NoMemory => return no_memory(rt),
        FileFault::Unlocked(_) => eprintln!(rt; "nbdj: cannot lock {path}"),
        FileFault::IsOutput => eprintln!(rt; "nbdj: {path} is standard output"),
        FileFault::IsErrors => Ok(()),
    };
    1
}

fn run_script(rt: &HostRuntime, course: Course) -> u8 {
    let mut input = rt.reader();
    let mut output = io::writer(rt);
    let mut errors = rt.stderr();
    match course {
        Course::Once => script(rt.alloc(), &mut input, &mut output, &mut errors),
        Course::Sweep => sweep(rt.alloc(), &mut input, &mut output, &mut errors),
        Course::Faults => faults(rt.alloc(), &mut input, &mut output, &mut errors),
    }
}
