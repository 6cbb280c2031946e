ghost use Rattle.std.specs.Prelude.{◌≡◌, ◌≢◌, ◌⊎◌, ◌+◌, ◌≤◌, ◌<◌, ◌++◌, ◌∷◌, [], IfOk, IsTrue, OnOk, OnErr, List, true, if◌then◌else◌, length, vec_len, vec_capacity};
ghost use Rattle.std.specs.List.{sum_by};
ghost use Rattle.nbd_wire.specs.declared.message.Run.{Run};
ghost use Rattle.nbd_wire.specs.Answer.{data_status};
ghost use Rattle.nbd_wire.specs.Head.{simple_reply};
ghost use Rattle.nbd_wire.specs.Chunk.{block_status, chunk_bytes, chunks_bytes, offset_data, offset_hole};
ghost use Rattle.nbd_wire.specs.Reply.{IsAnswerTo, chunks_of, part_chunks, reply_text, simple_text};
ghost use Rattle.nbd_wire.specs.inner.Reply.{part_len, whole_text};

use crate::chunk::{
    DATA_HEAD_LEN, ERROR_LEN, HOLE_LEN, RUN_LEN, STATUS_HEAD_LEN, put, put_data, put_data_head,
    put_error, put_hole, put_states,
};
use crate::command::{BLOCK_STATUS, READ};
use crate::head::encode_simple;
use crate::message::{Answer, DATA, ReadBytes, Reply, Run, SessionFlags, States};
use std::alloc::AllocError;

// The length of a simple reply, before the bytes of a READ.
const SIMPLE_LEN: usize = 16;

// This many data are worth a write of their own, which spares a copy of them.
const LEAST_APART: usize = 65_536;

/// Appends the reply to a request of this type, which asked for its bytes in one chunk where `df`: in chunks to
/// a READ and a BLOCK_STATUS where structured replies were agreed on, and else as a simple reply. Refusal 0 (no memory) appends
/// nothing.
pub fn encode_reply(
    reply: &Reply,
    session: &SessionFlags,
    kind: u16,
    df: bool,
    out: &mut Vec<u8>,
) -> Result<(), AllocError>
    requires { IsAnswerTo session.now kind reply.now.answer }
    ensures ok { OnOk result (out.new.items ≡ out.old.items ++ reply_text session.now kind df reply.now) }

    // It fails only where there is no room for the reply.
    ensures err { OnErr result (out.new.items ≡ out.old.items) }
    ensures full { OnErr result (vec_capacity out.old
        < vec_len out.old + length (reply_text session.now kind df reply.now)) }
{
    if session.structured && (kind == READ || kind == BLOCK_STATUS) {
        encode_chunks(reply, df, out)
    } else {
        encode_plain(reply, out)
    }
}

/// Appends a reply up to the data that end it, and gives these, to be written from where they are. They are none where
/// they are few, or aren't all the bytes of a READ. Refusal 0 (no memory) appends nothing.
pub fn encode_before_data<'a>(
    reply: &'a Reply,
    session: &SessionFlags,
    kind: u16,
    df: bool,
    out: &mut Vec<u8>,
) -> Result<&'a [u8], AllocError>
    requires { IsAnswerTo session.now kind reply.now.answer }
    ensures ok { IfOk result (λ behind. out.new.items ++ behind.now ≡ out.old.items ++ reply_text session.now kind df reply.now) }

    // It fails only where there is no room for the reply.
    ensures err { OnErr result (out.new.items ≡ out.old.items) }
    ensures full { OnErr result (vec_capacity out.old
        < vec_len out.old + length (reply_text session.now kind df reply.now)) }
{
    if let Answer::Bytes(read) = &reply.answer {
        let chunked = session.structured && kind == READ;
        if is_long_whole(read, df || !chunked) {
            encode_head(reply.cookie, read, chunked, out)?;
            return Ok(read.bytes());
        }
    }
    encode_reply(reply, session, kind, df, out)?;
    Ok(&[])
}

// Whether these are many data in one piece: as a whole, or in one run.
fn is_long_whole(read: &ReadBytes, whole: bool) -> bool
    ensures { IsTrue result → IsTrue whole ⊎ (part_chunks read.now.offset read.now.runs read.now.bytes ≡ offset_data read.now.offset read.now.bytes ∷ []) }
{
    read.bytes().len() >= LEAST_APART && (whole || is_one_run(read.runs()))
}

// Whether all is one run of data.
fn is_one_run(runs: &[Run]) -> bool
    ensures { IsTrue result → (run : Run) × (run.status ≡ data_status) × (runs.now ≡ run ∷ []) }
{
    match runs {
        [run] => run.status == DATA,
        _ => false,
    }
}

// Appends what stands before the data of a READ, in one chunk or in a simple reply.
fn encode_head(
    cookie: u64,
    read: &ReadBytes,
    chunked: bool,
    out: &mut Vec<u8>,
) -> Result<(), AllocError>
    ensures ok { OnOk result (out.new.items ++ read.now.bytes ≡ out.old.items ++ whole_text cookie chunked read.now) }
    ensures err { OnErr result (out.new.items ≡ out.old.items) }
    ensures full { OnErr result (vec_capacity out.old < vec_len out.old + length (whole_text cookie chunked read.now)) }
{
    if chunked {
        out.reserve(DATA_HEAD_LEN)?;
        put_data_head(out, true, cookie, read.offset(), read.bytes().len());
    } else {
        out.reserve(SIMPLE_LEN)?;
        put(out, &encode_simple(0, cookie));
    }
    Ok(())
}

/// Appends the reply in chunks: an error, the bytes of a READ, with DF in one chunk, or the states of a
/// BLOCK_STATUS. Refusal 0 (no memory) appends nothing.
pub fn encode_chunks(reply: &Reply, df: bool, out: &mut Vec<u8>) -> Result<(), AllocError>
    requires { reply.now.answer ≢ Answer.Done }
    ensures ok { OnOk result (out.new.items ≡ out.old.items ++ chunks_bytes reply.now.cookie (chunks_of df reply.now.answer)) }

    // It fails only where there is no room for the reply.
    ensures err { OnErr result (out.new.items ≡ out.old.items) }
    ensures full { OnErr result (vec_capacity out.old
        < vec_len out.old + length (chunks_bytes reply.now.cookie (chunks_of df reply.now.answer))) }
{
    match &reply.answer {
        Answer::Done => unreachable!(),
        Answer::Refused(errno) => {
            out.reserve(ERROR_LEN)?;
            put_error(out, reply.cookie, *errno);
            Ok(())
        }
        Answer::Bytes(read) if df => append_whole(out, reply.cookie, read),
        Answer::Bytes(read) => append_parts(out, reply.cookie, read),
        Answer::States(states) => append_states(out, reply.cookie, states),
    }
}

// All of the bytes in one chunk.
fn append_whole(out: &mut Vec<u8>, cookie: u64, read: &ReadBytes) -> Result<(), AllocError>
    ensures ok { OnOk result (out.new.items ≡ out.old.items ++ chunk_bytes true cookie (offset_data read.now.offset read.now.bytes)) }
    ensures err { OnErr result (out.new.items ≡ out.old.items) }
    ensures full { OnErr result (vec_capacity out.old
        < vec_len out.old + length (chunk_bytes true cookie (offset_data read.now.offset read.now.bytes))) }
{
    let bytes = read.bytes();
    out.reserve(DATA_HEAD_LEN + bytes.len())?;
    put_data(out, true, cookie, read.offset(), bytes);
    Ok(())
}

// A chunk for each run of the bytes.
fn append_parts(out: &mut Vec<u8>, cookie: u64, read: &ReadBytes) -> Result<(), AllocError>
    ensures ok { OnOk result (out.new.items ≡ out.old.items ++ chunks_bytes cookie (part_chunks read.now.offset read.now.runs read.now.bytes)) }
    ensures err { OnErr result (out.new.items ≡ out.old.items) }
    ensures full { OnErr result (vec_capacity out.old
        < vec_len out.old + length (chunks_bytes cookie (part_chunks read.now.offset read.now.runs read.now.bytes))) }
{
    out.reserve(parts_len(read.runs()))?;
    put_parts(out, cookie, read);
    Ok(())
}

// How many bytes the chunks on these runs take.
fn parts_len(runs: &[Run]) -> usize
    requires { length runs.now ≤ 1024 }
    ensures { result ≡ sum_by part_len runs.now }
{
    let mut total = 0;
    for run in runs {
        total += if run.status == DATA {
            DATA_HEAD_LEN + run.length as usize
        } else {
            HOLE_LEN
        };
    }
    total
}

// Appends a chunk for each run of the bytes, for which there is room.
fn put_parts(out: &mut Vec<u8>, cookie: u64, read: &ReadBytes)
    requires { vec_len out.old + sum_by part_len read.now.runs ≤ vec_capacity out.old }
    ensures { out.new.items ≡ out.old.items ++ chunks_bytes cookie (part_chunks read.now.offset read.now.runs read.now.bytes) }
{
    let mut runs = read.runs();
    let mut bytes = read.bytes();
    let mut offset = read.offset();
    while let Some((run, others)) = runs.split_first() {
        let (part, behind) = bytes.split_at(run.length as usize);
        put_part(
            out,
            others.is_empty(),
            cookie,
            offset,
            run.status == DATA,
            part,
        );
        offset += u64::from(run.length);
        bytes = behind;
        runs = others;
    }
}

// Appends the chunk on one part of the bytes.
fn put_part(out: &mut Vec<u8>, done: bool, cookie: u64, offset: u64, is_data: bool, part: &[u8])
    requires room { vec_len out.old + (if is_data then DATA_HEAD_LEN + length part.now else HOLE_LEN) ≤ vec_capacity out.old }
    requires fits { length part.now ≤ 1048576 }
    ensures items { out.new.items ≡ out.old.items
        ++ chunk_bytes done cookie (if is_data then offset_data offset part.now else offset_hole offset (length part.now)) }
    ensures len { vec_len out.new ≡ vec_len out.old + (if is_data then DATA_HEAD_LEN + length part.now else HOLE_LEN) }
    ensures room { vec_capacity out.old ≤ vec_capacity out.new }
{
    if is_data {
        put_data(out, done, cookie, offset, part);
    } else {
        put_hole(out, done, cookie, offset, part.len() as u32);
    }
}

// The states in one chunk.
fn append_states(out: &mut Vec<u8>, cookie: u64, states: &States) -> Result<(), AllocError>
    ensures ok { OnOk result (out.new.items ≡ out.old.items ++ chunk_bytes true cookie (block_status states.now)) }
    ensures err { OnErr result (out.new.items ≡ out.old.items) }
    ensures full { OnErr result (vec_capacity out.old
        < vec_len out.old + length (chunk_bytes true cookie (block_status states.now))) }
{
    let runs = states.runs();
    out.reserve(STATUS_HEAD_LEN + RUN_LEN * runs.len())?;
    put_states(out, cookie, runs);
    Ok(())
}

// Appends a simple reply.
fn encode_plain(reply: &Reply, out: &mut Vec<u8>) -> Result<(), AllocError>
    requires { (runs : List Run) → reply.now.answer ≢ Answer.States runs }
    ensures ok { OnOk result (out.new.items ≡ out.old.items ++ simple_text reply.now.cookie reply.now.answer) }
    ensures err { OnErr result (out.new.items ≡ out.old.items) }
    ensures full { OnErr result (vec_capacity out.old
        < vec_len out.old + length (simple_text reply.now.cookie reply.now.answer)) }
{
    match &reply.answer {
        Answer::Done => encode_simple_reply(0, reply.cookie, &[], out),
        Answer::Refused(errno) => encode_simple_reply(errno.number(), reply.cookie, &[], out),
        Answer::Bytes(read) => encode_simple_reply(0, reply.cookie, read.bytes(), out),
        Answer::States(_) => unreachable!(),
    }
}

/// Appends the simple reply with this error, 0 for none, and the bytes of a READ that succeeded. Refusal 0 (no memory) appends
/// nothing.
pub fn encode_simple_reply(
    error: u32,
    cookie: u64,
    bytes: &[u8],
    out: &mut Vec<u8>,
) -> Result<(), AllocError>
    ensures ok { OnOk result (out.new.items ≡ out.old.items ++ simple_reply error cookie bytes.now) }

    // It fails only where there is no room for the reply.
    ensures err { OnErr result (out.new.items ≡ out.old.items) }
    ensures full { OnErr result (vec_capacity out.old < vec_len out.old + length (simple_reply error cookie bytes.now)) }
{
    out.reserve(SIMPLE_LEN + bytes.len())?;
    put(out, &encode_simple(error, cookie));
    put(out, bytes);
    Ok(())
}
