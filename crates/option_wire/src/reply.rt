ghost use Rattle.std.specs.Prelude.{◌≡◌, ◌+◌, ◌≤◌, ◌<◌, ◌^◌, ◌++◌, OnOk, OnErr, length, vec_len, vec_capacity};
ghost use Rattle.option_wire.specs.Field.{counted};
ghost use Rattle.option_wire.specs.Reply.{error_code, information_data, reply_bytes, reply_data, reply_head, reply_type};

use crate::text::Text;
use byteorder::{BigEndian, ByteOrder};
use std::alloc::AllocError;

const REPLY_MAGIC: u64 = 0x0003_e889_0455_65a9;

// The length of a reply, before its data.
const REPLY_HEAD_LEN: usize = 20;

// The types of replies.
const ACK: u32 = 1;

const SERVER: u32 = 2;

const INFO_REPLY: u32 = 3;

const META_CONTEXT: u32 = 4;

// An error's type is this number and the error's own.
const ERROR: u32 = 0x8000_0000;

/// The size of an export, and its transmission flags.
pub const INFO_EXPORT: u16 = 0;
/// The name that the server calls the export by.
pub const INFO_NAME: u16 = 1;
/// A text for people.
pub const INFO_DESCRIPTION: u16 = 2;
/// The sizes of blocks.
pub const INFO_BLOCK_SIZE: u16 = 3;

/// What an option is answered ("Option reply types" of NBD's `proto.md`).
#[derive(Drop)]
pub enum OptionReply {
    /// Done; no other reply to the option follows.
    Ack,
    /// The name of an export.
    Server(Text),
    Info(Information),
    MetaContext { id: u32, name: Text },
    /// The option is refused, with no text.
    Refused(OptionError),
}

/// What there is to know of an export, by the type of information.
#[derive(Drop)]
pub enum Information {
    /// [`INFO_EXPORT`]: the size in bytes, and the transmission flags.
    Export {
        size: u64,
        flags: u16,
    },
    /// [`INFO_NAME`].
    Name(Text),
    /// [`INFO_DESCRIPTION`].
    Description(Text),
    /// [`INFO_BLOCK_SIZE`]: what a request's range has to be a multiple of, what it is best a multiple of, and
    /// how long a READ or a WRITE may be, in bytes.
    BlockSize {
        minimum: u32,
        preferred: u32,
        maximum: u32,
    },
}

/// Why an option is refused ("Option reply types" of NBD's `proto.md`).
#[derive(Clone, Copy)]
pub enum OptionError {
    /// ERR_UNSUP: the server doesn't know the option.
    Unsupported,
    /// ERR_POLICY: it doesn't let this client have it.
    Policy,
    /// ERR_INVALID: the data are malformed, or the option is out of place.
    Invalid,
    /// ERR_PLATFORM: the server can't do it where it runs.
    Platform,
    /// ERR_TLS_REQD: only an encrypted session may.
    TlsRequired,
    /// ERR_UNKNOWN: there is no export of this name.
    Unknown,
    /// ERR_SHUTDOWN: the server is about to end.
    Shutdown,
    /// ERR_BLOCK_SIZE_REQD: the client has to ask for the sizes of blocks.
    BlockSizeRequired,
    /// ERR_TOO_BIG: the data are too long.
    TooBig,
}

impl OptionError {
    // What stands in the reply's type beside the bit of an error.
    fn code(self) -> u32
        ensures { result ≡ error_code self }
    {
        match self {
            OptionError::Unsupported => 1,
            OptionError::Policy => 2,
            OptionError::Invalid => 3,
            OptionError::Platform => 4,
            OptionError::TlsRequired => 5,
            OptionError::Unknown => 6,
            OptionError::Shutdown => 7,
            OptionError::BlockSizeRequired => 8,
            OptionError::TooBig => 9,
        }
    }
}

/// Appends the reply to the option of this number. Refusal 0 (no memory), before anything is appended.
pub fn encode_option_reply(
    option: u32,
    reply: &OptionReply,
    out: &mut Vec<u8>,
) -> Result<(), AllocError>
    requires { length (reply_data reply.now) < 2 ^ 32 }
    ensures ok { OnOk result (out.new.items ≡ out.old.items ++ reply_bytes option reply.now) }

    // It fails only where there is no room for the reply.
    ensures err { OnErr result (out.new.items ≡ out.old.items) }
    ensures full { OnErr result (vec_capacity out.old < vec_len out.old + length (reply_bytes option reply.now)) }
{
    let size = data_len(reply);
    out.reserve(REPLY_HEAD_LEN + size)?;
    put(out, &encode_head(option, type_of(reply), size as u32));
    put_data(out, reply);
    Ok(())
}

fn type_of(reply: &OptionReply) -> u32
    ensures { result ≡ reply_type reply.now }
{
    match reply {
        OptionReply::Ack => ACK,
        OptionReply::Server(_) => SERVER,
        OptionReply::Info(_) => INFO_REPLY,
        OptionReply::MetaContext { .. } => META_CONTEXT,
        OptionReply::Refused(error) => ERROR + error.code(),
    }
}

fn data_len(reply: &OptionReply) -> usize
    requires { length (reply_data reply.now) < 2 ^ 32 }
    ensures { result ≡ length (reply_data reply.now) }
{
    match reply {
        OptionReply::Ack => 0,
        OptionReply::Server(name) => 4 + name.as_bytes().len(),
        OptionReply::Info(information) => information_len(information),
        OptionReply::MetaContext { name, .. } => 4 + name.as_bytes().len(),
        OptionReply::Refused(_) => 0,
    }
}

fn information_len(information: &Information) -> usize
    requires { length (information_data information.now) < 2 ^ 32 }
    ensures { result ≡ length (information_data information.now) }
{
    match information {
        Information::Export { .. } => 12,
        Information::Name(name) => 2 + name.as_bytes().len(),
        Information::Description(text) => 2 + text.as_bytes().len(),
        Information::BlockSize { .. } => 14,
    }
}

// What stands before the data, with their length.
#[tactic(auto, unfolding(crate::specs::Reply::reply_head))]
fn encode_head(option: u32, kind: u32, size: u32) -> [u8; 20]
    ensures { result ≡ reply_head option kind size }
{
    let mut bytes = [0; 20];
    BigEndian::write_u64(&mut bytes[0..8], REPLY_MAGIC);
    BigEndian::write_u32(&mut bytes[8..12], option);
    BigEndian::write_u32(&mut bytes[12..16], kind);
    BigEndian::write_u32(&mut bytes[16..20], size);
    bytes
}

// Appends bytes for which there is room.
pub fn put(out: &mut Vec<u8>, bytes: &[u8])
    requires { vec_len out.old + length bytes.now ≤ vec_capacity out.old }
    ensures items { out.new.items ≡ out.old.items ++ bytes.now }
    ensures len { vec_len out.new ≡ vec_len out.old + length bytes.now }
    ensures room { vec_capacity out.old ≤ vec_capacity out.new }
{
    out.extend_from_slice(bytes).unwrap();
}

// Appends the data of a reply, for which there is room.
fn put_data(out: &mut Vec<u8>, reply: &OptionReply)
    requires room { vec_len out.old + length (reply_data reply.now) ≤ vec_capacity out.old }
    requires fits { length (reply_data reply.now) < 2 ^ 32 }
    ensures { out.new.items ≡ out.old.items ++ reply_data reply.now }
{
    match reply {
        OptionReply::Ack | OptionReply::Refused(_) => {}
        OptionReply::Server(name) => put_counted(out, name.as_bytes()),
        OptionReply::Info(information) => put_information(out, information),
        OptionReply::MetaContext { id, name } => {
            put(out, &id.to_be_bytes());
            put(out, name.as_bytes());
        }
    }
}

// Appends a string after its length, for which there is room.
fn put_counted(out: &mut Vec<u8>, text: &[u8])
    requires room { vec_len out.old + 4 + length text.now ≤ vec_capacity out.old }
    requires fits { length text.now < 2 ^ 32 }
    ensures { out.new.items ≡ out.old.items ++ counted text.now }
{
    put(out, &(text.len() as u32).to_be_bytes());
    put(out, text);
}

// Appends the data of an INFO reply, for which there is room.
fn put_information(out: &mut Vec<u8>, information: &Information)
    requires { vec_len out.old + length (information_data information.now) ≤ vec_capacity out.old }
    ensures { out.new.items ≡ out.old.items ++ information_data information.now }
{
    match information {
        Information::Export { size, flags } => put(out, &encode_export(*size, *flags)),
        Information::Name(name) => {
            put(out, &INFO_NAME.to_be_bytes());
            put(out, name.as_bytes());
        }
        Information::Description(text) => {
            put(out, &INFO_DESCRIPTION.to_be_bytes());
            put(out, text.as_bytes());
        }
        Information::BlockSize {
            minimum,
            preferred,
            maximum,
        } => put(out, &encode_block_size(*minimum, *preferred, *maximum)),
    }
}

fn encode_export(size: u64, flags: u16) -> [u8; 12]
    ensures { result ≡ information_data (Information.Export size flags) }
{
    let mut bytes = [0; 12];
    BigEndian::write_u16(&mut bytes[0..2], INFO_EXPORT);
    BigEndian::write_u64(&mut bytes[2..10], size);
    BigEndian::write_u16(&mut bytes[10..12], flags);
    bytes
}

fn encode_block_size(minimum: u32, preferred: u32, maximum: u32) -> [u8; 14]
    ensures { result ≡ information_data (Information.BlockSize minimum preferred maximum) }
{
    let mut bytes = [0; 14];
    BigEndian::write_u16(&mut bytes[0..2], INFO_BLOCK_SIZE);
    BigEndian::write_u32(&mut bytes[2..6], minimum);
    BigEndian::write_u32(&mut bytes[6..10], preferred);
    BigEndian::write_u32(&mut bytes[10..14], maximum);
    bytes
}
