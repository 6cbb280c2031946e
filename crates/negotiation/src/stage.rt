ghost use Rattle.std.specs.Prelude.{◌≡◌, ℕ, ◌+◌, ◌-◌, ◌≤◌, ◌<◌, ◌++◌, length, vec_len, IfOk, OnErr};
ghost use Rattle.option_wire.specs.Head.{option_head};
ghost use Rattle.negotiation.specs.Answered.{AreShort, Offer};
ghost use Rattle.negotiation.specs.Dialog.{Leaves, kept_limit, most_bytes};
ghost use Rattle.negotiation.specs.Session.{IsGreeted, standing_of};
ghost use Rattle.negotiation.specs.inner.Session.{IsLongPart, IsPart, Step, TakesFlags, standing_behind, wanted_of, IsData, Settles};

use crate::answer::{Agreed, Next, OptionAnswer};
use crate::offer::OfferedExport;
use crate::option::{answer_data, refuse_option};
use nbd_wire::StreamReader;
use option_wire::{EXPORT_NAME, OptionError, OptionHead, decode_client_flags, decode_option_head};
use std::alloc::{AllocError, Global};

/// The most bytes of an option's data that are kept: 64 KiB.
pub const MAX_OPTION_DATA: u32 = 65_536;
/// The most bytes of an option's data that are read: 32 MiB.
pub const MAX_OPTION_THROWN_AWAY: u32 = 33_554_432;

const FLAGS_LEN: usize = 4;

const HEAD_LEN: usize = 16;

// What a session is reading.
#[derive(Drop)]
pub enum Stage {
    // Nothing was said yet.
    Silent,
    // The first of the client's flags.
    Flags(Vec<u8>),
    // The first of what stands before an option's data.
    Head(Vec<u8>),
    // What stood there, and the first of the data.
    Data { head: OptionHead, bytes: Vec<u8> },
    // An option whose data aren't kept, and how many of them are still to come.
    Discard { option: u32, missing: u32 },
    // Transmission.
    Requests(StreamReader),
    // The client ended the session.
    Ended,
    // What it sent ends the session.
    Broken,
    // Memory ran out.
    Exhausted,
}

// A handshake: what is agreed on, and what is being read.
#[derive(Drop)]
pub struct Talk {
    pub agreed: Agreed,
    pub stage: Stage,
}

// What is read after an option.
pub fn behind(alloc: Global, next: Next) -> Stage
    ensures sound { IsGreeted result }
    ensures value { standing_of result ≡ standing_behind next }
{
    match next {
        Next::Option => Stage::Head(Vec::new(alloc)),
        Next::Transmission => Stage::Requests(StreamReader::new(alloc)),
        Next::End => Stage::Ended,
        Next::Fault => Stage::Broken,
    }
}

// How many bytes end what is being read of the handshake; none where it isn't one.
pub fn wanted(stage: &Stage) -> usize
    requires { IsGreeted stage.now }
    ensures { result ≡ wanted_of stage.now }
{
    match stage {
        Stage::Flags(bytes) => FLAGS_LEN - bytes.len(),
        Stage::Head(bytes) => HEAD_LEN - bytes.len(),
        Stage::Data { head, bytes } => head.length as usize - bytes.len(),
        Stage::Discard { missing, .. } => *missing as usize,
        _ => 0,
    }
}

// Takes the next of the client's flags.
pub fn take_flags(
    alloc: Global,
    agreed: Agreed,
    bytes: Vec<u8>,
    front: &[u8],
) -> Result<Talk, AllocError>
    requires { vec_len bytes + length front.now ≤ 4 }
    ensures sound { IfOk result (λ talk. IsGreeted talk.stage) }
    ensures takes { IfOk result (λ talk. TakesFlags agreed (bytes.items ++ front.now) talk.agreed (standing_of talk.stage)) }
{
    let mut bytes = bytes;
    bytes.extend_from_slice(front)?;
    if bytes.len() < FLAGS_LEN {
        let stage = Stage::Flags(bytes);
        return Ok(Talk { agreed, stage });
    }
    let mut whole = [0; FLAGS_LEN];
    whole.copy_from_slice(&bytes);
    let client = decode_client_flags(&whole);
    if !client.is_accepted() {
        let stage = Stage::Broken;
        return Ok(Talk { agreed, stage });
    }
    let agreed = Agreed {
        no_zeroes: client.omits_zeroes(),
        ..agreed
    };
    let stage = Stage::Head(Vec::new(alloc));
    Ok(Talk { agreed, stage })
}

// Takes the next of what stands before an option's data.
pub fn take_head(
    alloc: Global,
    offer: &OfferedExport,
    agreed: Agreed,
    bytes: Vec<u8>,
    front: &[u8],
    out: &mut Vec<u8>,
) -> Result<Talk, AllocError>
    requires { vec_len bytes + length front.now ≤ 16 }
    ensures sound { IfOk result (λ talk. IsGreeted talk.stage) }
    ensures takes { IfOk result (Step agreed offer.now (λ text. text ≡ bytes.items ++ front.now) out.old.items out.new.items) }
    ensures err { OnErr result (out.new.items ≡ out.old.items) }
{
    let mut bytes = bytes;
    bytes.extend_from_slice(front)?;
    if bytes.len() < HEAD_LEN {
        let stage = Stage::Head(bytes);
        return Ok(Talk { agreed, stage });
    }
    let mut whole = [0; HEAD_LEN];
    whole.copy_from_slice(&bytes);
    begin(alloc, offer, agreed, &whole, out)
}

// Decides by what stands before an option's data what becomes of them; an option with no data is whole.
fn begin(
    alloc: Global,
    offer: &OfferedExport,
    agreed: Agreed,
    bytes: &[u8; 16],
    out: &mut Vec<u8>,
) -> Result<Talk, AllocError>
    ensures sound { IfOk result (λ talk. IsGreeted talk.stage) }
    ensures takes { IfOk result (Step agreed offer.now (λ text. text ≡ bytes.now) out.old.items out.new.items) }
    ensures err { OnErr result (out.new.items ≡ out.old.items) }
{
    let Ok(head) = decode_option_head(bytes) else {
        let stage = Stage::Broken;
        return Ok(Talk { agreed, stage });
    };
    if head.length == 0 {
        return close(alloc, offer, agreed, head.option, &[], out);
    }
    let stage = data_stage(alloc, head.option, head.length);
    Ok(Talk { agreed, stage })
}

// The most bytes of data that are read. The name of an EXPORT_NAME isn't thrown away, as it can't be refused.
fn most_bytes(option: u32) -> u32
    ensures { result ≡ most_bytes option }
{
    if option == EXPORT_NAME {
        MAX_OPTION_DATA
    } else {
        MAX_OPTION_THROWN_AWAY
    }
}

// How the data of an option are read.
fn data_stage(alloc: Global, option: u32, length: u32) -> Stage
    requires { 0 < length }
    ensures sound { IsGreeted result }
    ensures leaves { Leaves (standing_of result) (option_head option length) }
{
    if length <= MAX_OPTION_DATA {
        let head = OptionHead { option, length };
        let bytes = Vec::new(alloc);
        return Stage::Data { head, bytes };
    }
    if length > most_bytes(option) {
        return Stage::Broken;
    }
    Stage::Discard {
        option,
        missing: length,
    }
}

// Takes the next of an option's data.
pub fn take_data(
    alloc: Global,
    offer: &OfferedExport,
    agreed: Agreed,
    head: OptionHead,
    bytes: Vec<u8>,
    front: &[u8],
    out: &mut Vec<u8>,
) -> Result<Talk, AllocError>
    requires wanted { vec_len bytes + length front.now ≤ head.length }
    requires kept { head.length ≤ kept_limit }
    ensures sound { IfOk result (λ talk. IsGreeted talk.stage) }
    ensures takes { IfOk result (Step agreed offer.now (IsPart head.option head.length (bytes.items ++ front.now)) out.old.items out.new.items) }
    ensures err { OnErr result (out.new.items ≡ out.old.items) }
{
    let mut bytes = bytes;
    bytes.extend_from_slice(front)?;
    if bytes.len() < head.length as usize {
        let stage = Stage::Data { head, bytes };
        return Ok(Talk { agreed, stage });
    }
    close(alloc, offer, agreed, head.option, &bytes, out)
}

// Passes over bytes of data that aren't kept.
pub fn discard(
    alloc: Global,
    agreed: Agreed,
    option: u32,
    missing: u32,
    front: &[u8],
    out: &mut Vec<u8>,
) -> Result<Talk, AllocError>
    requires { length front.now ≤ missing }
    ensures sound { IfOk result (λ talk. IsGreeted talk.stage) }
    ensures takes { IfOk result (λ talk. (offer : Offer) → Step agreed offer (IsLongPart option (missing - length front.now)) out.old.items out.new.items talk) }
    ensures err { OnErr result (out.new.items ≡ out.old.items) }
{
    let missing = missing - front.len() as u32;
    if missing > 0 {
        let stage = Stage::Discard { option, missing };
        return Ok(Talk { agreed, stage });
    }
    let answer = refuse_option(alloc, option, agreed, OptionError::TooBig)?;
    settle(alloc, option, &answer, out)
}

// Answers an option whose data are whole.
fn close(
    alloc: Global,
    offer: &OfferedExport,
    agreed: Agreed,
    option: u32,
    bytes: &[u8],
    out: &mut Vec<u8>,
) -> Result<Talk, AllocError>
    requires { length bytes.now ≤ kept_limit }
    ensures sound { IfOk result (λ talk. IsGreeted talk.stage) }
    ensures takes { IfOk result (Step agreed offer.now (IsData option bytes.now) out.old.items out.new.items) }
    ensures err { OnErr result (out.new.items ≡ out.old.items) }
{
    let answer = answer_data(alloc, option, bytes, agreed, offer)?;
    settle(alloc, option, &answer, out)
}

// Writes the answer to an option, all or none, and goes on by its answer.
fn settle(
    alloc: Global,
    option: u32,
    answer: &OptionAnswer,
    out: &mut Vec<u8>,
) -> Result<Talk, AllocError>
    requires { AreShort answer.now.replies }
    ensures sound { IfOk result (λ talk. IsGreeted talk.stage) }
    ensures settles { IfOk result (Settles option answer.now out.old.items out.new.items) }
    ensures err { OnErr result (out.new.items ≡ out.old.items) }
{
    answer.encode(option, out)?;
    Ok(Talk {
        agreed: answer.agreed(),
        stage: behind(alloc, answer.next()),
    })
}
