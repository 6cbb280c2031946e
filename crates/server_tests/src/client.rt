//! A client that waits for its server at most twenty seconds at a time.
ghost use Rattle.std.specs.Prelude.{◌<◌, ◌^◌};

use nbd_wire::{DISCONNECT, READ, RequestHead, WRITE, encode_request};
use std::io::{self, ErrorKind, Read, Write};
use std::net::{Ipv4Addr, SocketAddr, TcpStream};
use std::time::Duration;

// This many seconds are more than a group is held.
const PATIENCE: u64 = 20;

#[derive(Drop)]
pub struct Client {
    stream: TcpStream,
}

impl Client {
    /// A client whose handshake is over.
    pub fn connect(rt: &HostRuntime, port: u16) -> io::Result<Client> {
        let stream = TcpStream::connect(rt, SocketAddr::from((Ipv4Addr::LOCALHOST, port)))?;
        stream.set_read_timeout(Some(Duration::from_secs(PATIENCE)))?;
        stream.set_nodelay(true)?;
        let mut client = Client { stream };
        client.agree()?;
        Ok(client)
    }

    // Fixed newstyle, and the option GO for the export without a name, which asks for its sizes of blocks.
    fn agree(&mut self) -> io::Result<()> {
        let mut greeting = [0; 18];
        self.stream.read_exact(&mut greeting)?;
        self.stream.write_all(&[0, 0, 0, 3])?;
        self.stream.write_all(
            b"IHAVEOPT\x00\x00\x00\x07\x00\x00\x00\x08\x00\x00\x00\x00\x00\x01\x00\x03",
        )?;
        // Three replies of 20 bytes and their data: the export's size and flags, its sizes of blocks, and the end.
        let mut replies = [0; 86];
        self.stream.read_exact(&mut replies)
    }

    /// Sends a WRITE of one block, of one byte over and over. Its cookie is the block's number.
    pub fn send_write(&mut self, block: u64, byte: u8, flags: u16) -> io::Result<()>
        requires { block < 2 ^ 24 }
    {
        self.send(RequestHead {
            flags,
            kind: WRITE,
            cookie: block,
            offset: 4096 * block,
            length: 4096,
        })?;
        self.stream.write_all(&[byte; 4096])
    }

    /// Reads one block, which has to be of one byte over and over.
    pub fn expect_block(&mut self, block: u64, byte: u8) -> io::Result<()>
        requires { block < 2 ^ 24 }
    {
        self.send(RequestHead {
            flags: 0,
            kind: READ,
            cookie: block,
            offset: 4096 * block,
            length: 4096,
        })?;
        self.expect_done(block)?;
        let mut data = [0; 4096];
        self.stream.read_exact(&mut data)?;
        if data == [byte; 4096] {
            Ok(())
        } else {
            Err(io::Error::from(ErrorKind::InvalidData))
        }
    }

    /// Ends the session.
    pub fn disconnect(&mut self) -> io::Result<()> {
        self.send(RequestHead {
            flags: 0,
            kind: DISCONNECT,
            cookie: 0,
            offset: 0,
            length: 0,
        })
    }

    fn send(&mut self, head: RequestHead) -> io::Result<()> {
        self.stream.write_all(&encode_request(&head))
    }

    /// Waits for a simple reply without an error to the request with this cookie.
    pub fn expect_done(&mut self, cookie: u64) -> io::Result<()> {
        let mut reply = [0; 16];
        self.stream.read_exact(&mut reply)?;
        let mut expected = [0x67, 0x44, 0x66, 0x98, 0, 0, 0, 0, 0, 0, 0, 0, 0, 0, 0, 0];
        expected[8..].copy_from_slice(&cookie.to_be_bytes());
        if reply == expected {
            Ok(())
        } else {
            Err(io::Error::from(ErrorKind::InvalidData))
        }
    }
}
