//! Sockets that the process was started with, as systemd hands them over.

use os::FromRawFd;
use server::Listener;
use std::net::TcpListener;
use std::os::fd::OwnedFd;
use std::os::unix::net::UnixListener;
use std::{env, io, process};

// The first descriptor that is handed over.
const FIRST: i32 = 3;

// The most of them that are taken.
const MOST: u8 = 64;

/// How many sockets the process was started with: LISTEN_FDS of them, where LISTEN_PID is this process.
pub fn count(rt: &HostRuntime) -> u8 {
    let own = process::id(rt.process());
    if number::<u32>(rt, "LISTEN_PID") != Some(own) {
        return 0;
    }
    match number::<u8>(rt, "LISTEN_FDS") {
        Some(count) if count <= MOST => count,
        _ => 0,
    }
}

fn number<T: std::str::FromStr>(rt: &HostRuntime, name: &str) -> Option<T>
where
    T::Err: Drop,
{
    env::var(rt, name).ok()?.as_str().parse().ok()
}

/// A socket that was handed over. It is taken once.
pub fn take(at: u8) -> io::Result<Listener> {
    let descriptor = FIRST + i32::from(at);
    let socket = unsafe { TcpListener::from_raw_fd(descriptor) };
    socket.set_nonblocking(false)?;
    if socket.local_addr().is_ok() {
        return Ok(Listener::from(socket).into_shared());
    }
    let socket = UnixListener::from(OwnedFd::from(socket));
    // Fails where the descriptor is no socket.
    let _address = socket.local_addr()?;
    Ok(Listener::from(socket).into_shared())
}
