use crate::client::Client;
use libc::net;
use std::io;
use std::net::{TcpListener, TcpStream};
use std::os::fd::{AsRawFd, OwnedFd};
use std::os::unix::net::{UnixListener, UnixStream};
use std::time::Duration;

// Milliseconds after which a wait at a shared listener ends, so that the end of the server is seen.
const LONGEST_WAIT: u64 = 200;

// How many bytes of replies Linux may keep for a client at a Unix socket that doesn't read them yet. It counts twice as many, because of
// its own needs.
const SEND_BUFFER: i32 = 524_288;

#[derive(Drop)]
enum Socket {
    Tcp(TcpListener),
    Unix(UnixListener),
}

/// A socket at which clients arrive.
#[derive(Drop)]
pub struct Listener {
    socket: Socket,
    // Whether another process has it too, and goes on with it after the server's end.
    is_shared: bool,
}

// Lets the system keep most of a long reply, so that the worker reads for the next request while the client takes this one. If the system
// refuses, or allows less (`net.core.wmem_max`), the worker waits for the client sooner. (At a TCP socket the system chooses by itself.)
fn lengthen_send_buffer(stream: &UnixStream) {
    let mut value = [0; 16];
    value[..4].copy_from_slice(&SEND_BUFFER.to_ne_bytes());
    let descriptor = stream.as_raw_fd();
    let _ = unsafe { net::setsockopt(descriptor, net::SOL_SOCKET, net::SO_SNDBUF, &value, 4) };
}

impl From<TcpListener> for Listener {
    fn from(listener: TcpListener) -> Listener {
        Listener {
            socket: Socket::Tcp(listener),
            is_shared: false,
        }
    }
}

impl From<UnixListener> for Listener {
    fn from(listener: UnixListener) -> Listener {
        Listener {
            socket: Socket::Unix(listener),
            is_shared: false,
        }
    }
}

impl Listener {
    /// The same listener, which another process has too: the end of the server doesn't shut it.
    pub fn into_shared(self) -> Listener {
        Listener {
            is_shared: true,
            ..self
        }
    }

    /// Waits for the next client. At a shared listener the wait may end without one.
    pub(crate) fn accept(&self) -> io::Result<Client> {
        match &self.socket {
            Socket::Tcp(listener) => {
                let (stream, _) = listener.accept()?;
                // A reply is sent at once, though it is short.
                stream.set_nodelay(true)?;
                Ok(Client::Tcp(stream))
            }
            Socket::Unix(listener) => {
                let (stream, _) = listener.accept()?;
                lengthen_send_buffer(&stream);
                Ok(Client::Unix(stream))
            }
        }
    }

    /// The same socket, to be shut, which wakes a thread that waits at it. A shared one isn't shut: its waits are short.
    pub(crate) fn shutdown_handle(&self) -> io::Result<Option<Client>> {
        let handle = match &self.socket {
            Socket::Tcp(listener) => {
                let socket = OwnedFd::from(listener.try_clone()?);
                Client::Tcp(TcpStream::from(socket))
            }
            Socket::Unix(listener) => {
                let socket = OwnedFd::from(listener.try_clone()?);
                Client::Unix(UnixStream::from(socket))
            }
        };
        if !self.is_shared {
            return Ok(Some(handle));
        }
        handle.limit_wait(Some(Duration::from_millis(LONGEST_WAIT)))?;
        Ok(None)
    }
}
