//! What a service manager is told, as by `sd_notify`: one datagram to the socket that NOTIFY_SOCKET names.
ghost use Rattle.std.specs.Prelude.{◌≤◌, IfSome};

use libc::net;
use os::FromRawFd;
use std::env;
use std::os::fd::OwnedFd;

/// Tells it this, if there is one. If it can't be told, it goes without.
pub fn notify(rt: &HostRuntime, state: &str) {
    let Ok(name) = env::var(rt, "NOTIFY_SOCKET") else {
        return;
    };
    let mut address = [0; net::_SS_SIZE];
    let Some(length) = write_address(name.as_bytes(), &mut address) else {
        return;
    };
    let descriptor = unsafe { net::socket(net::AF_UNIX, net::SOCK_DGRAM | net::SOCK_CLOEXEC, 0) };
    if descriptor < 0 {
        return;
    }
    let _ = unsafe {
        net::sendto(
            descriptor,
            state.as_bytes(),
            net::MSG_NOSIGNAL | net::MSG_DONTWAIT,
            &address,
            length,
        )
    };
    let _closed = unsafe { OwnedFd::from_raw_fd(descriptor) };
}

// Writes the address of a Unix socket, a path or after an `@` a name that is no file, over zeroes; its length. None if it is neither,
// or too long.
fn write_address(name: &[u8], address: &mut [u8; net::_SS_SIZE]) -> Option<u32>
    ensures { IfSome result (λ length. length ≤ 128) }
{
    const FAMILY_BYTES: usize = 2;
    const MOST_NAME_BYTES: usize = 108;
    let is_abstract = name.starts_with(b"@");
    if !(is_abstract || name.starts_with(b"/")) || name.len() >= MOST_NAME_BYTES {
        return None;
    }
    address[..FAMILY_BYTES].copy_from_slice(&(net::AF_UNIX as u16).to_ne_bytes());
    address[FAMILY_BYTES..FAMILY_BYTES + name.len()].copy_from_slice(name);
    if is_abstract {
        address[FAMILY_BYTES] = 0;
    }
    // A path ends with a zero, which counts.
    let end = usize::from(!is_abstract);
    Some((FAMILY_BYTES + name.len() + end) as u32)
}
