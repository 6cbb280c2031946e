ghost use Rattle.std.specs.Prelude.{◌≡◌, IfOk, [], ◌∷◌};
ghost use Rattle.negotiation.specs.Answered.{AreShort, IsAnswered, answer_of, asks_for, context_reply, export_flags, export_reply, goes_on, informed, listed, named, refusal_of, selected, size_reply, with_context, with_structured};

use crate::answer::{Agreed, Next, OptionAnswer, one, two};
use crate::offer::OfferedExport;
use nbd_wire::{SessionFlags, transmission_flags};
use option_wire::{
    ClientOption, ContextRequest, ExportAnswer, INFO_BLOCK_SIZE, InfoRequest, Information,
    OptionError, OptionFault, OptionReply, SET_META_CONTEXT, Text, decode_option,
};
use std::alloc::{AllocError, Global};

// The sizes that a request's range has to go by and is best made of, and how long a READ or a WRITE may be.
const MINIMUM: u32 = 1;

const PREFERRED: u32 = 4096;

const MAXIMUM: u32 = 1_048_576;

const BASE: &[u8] = b"base:";

const ALLOCATION: &[u8] = b"base:allocation";

// The number of the context in replies, and where it is only listed.
const SELECTED: u32 = 1;

const LISTED: u32 = 0;

/// The answer to an option of this number with these data, of a session that has agreed on so much and offers this
/// export: malformed data are answered ERR_INVALID. Refusal 0 (no memory).
pub fn answer_data(
    alloc: Global,
    code: u32,
    bytes: &[u8],
    agreed: Agreed,
    offer: &OfferedExport,
) -> Result<OptionAnswer, AllocError>
    ensures answered { IfOk result (IsAnswered agreed offer.now code bytes.now) }
    ensures short { IfOk result (λ answer. AreShort answer.replies) }
{
    match decode_option(alloc, code, bytes) {
        Ok(option) => answer_option(alloc, &option, agreed, offer),
        Err(OptionFault::Malformed) => refuse_option(alloc, code, agreed, OptionError::Invalid),
        Err(OptionFault::NoMemory) => Err(AllocError),
    }
}

/// The answer to an option of a session that has agreed on so much and offers this export. Refusal 0 (no memory).
pub fn answer_option(
    alloc: Global,
    option: &ClientOption,
    agreed: Agreed,
    offer: &OfferedExport,
) -> Result<OptionAnswer, AllocError>
    ensures value { IfOk result (λ answer. answer ≡ answer_of agreed offer.now option.now) }
    ensures short { IfOk result (λ answer. AreShort answer.replies) }
{
    match option {
        ClientOption::ExportName(name) => Ok(name_export(alloc, name, agreed, offer)),
        ClientOption::Abort => {
            Ok(OptionAnswer::new(one(alloc, OptionReply::Ack)?, agreed, Next::End))
        }
        ClientOption::ListExports => {
            let name = Text::from_slice(alloc, offer.name())?;
            let replies = two(alloc, OptionReply::Server(name), OptionReply::Ack)?;
            Ok(OptionAnswer::new(replies, agreed, Next::Option))
        }
        ClientOption::StartTls | ClientOption::Unknown(_) => {
            refuse(alloc, agreed, OptionError::Unsupported)
        }
        ClientOption::Info(asked) => inform(alloc, asked, agreed, offer, Next::Option),
        ClientOption::Go(asked) => inform(alloc, asked, agreed, offer, Next::Transmission),
        ClientOption::StructuredReply => {
            let now = with_structured(agreed);
            Ok(OptionAnswer::new(one(alloc, OptionReply::Ack)?, now, Next::Option))
        }
        ClientOption::ListMetaContext(asked) => list(alloc, asked, agreed, offer),
        ClientOption::SetMetaContext(asked) => select(alloc, asked, agreed, offer),
    }
}

/// The answer to an option of this number that isn't read, because its data are malformed or too long. A selection
/// of contexts that is refused leaves none selected. Refusal 0 (no memory).
pub fn refuse_option(
    alloc: Global,
    code: u32,
    agreed: Agreed,
    error: OptionError,
) -> Result<OptionAnswer, AllocError>
    ensures value { IfOk result (λ answer. answer ≡ refusal_of agreed code error) }
    ensures short { IfOk result (λ answer. AreShort answer.replies) }
{
    let context = agreed.flags.context && code != SET_META_CONTEXT;
    refuse(alloc, with_context(agreed, context), error)
}

fn with_structured(agreed: Agreed) -> Agreed
    ensures { result ≡ with_structured agreed }
{
    let flags = SessionFlags {
        structured: true,
        context: agreed.flags.context,
    };
    Agreed { flags, ..agreed }
}

fn with_context(agreed: Agreed, context: bool) -> Agreed
    ensures { result ≡ with_context context agreed }
{
    let flags = SessionFlags {
        structured: agreed.flags.structured,
        context,
    };
    Agreed { flags, ..agreed }
}

fn refuse(alloc: Global, agreed: Agreed, error: OptionError) -> Result<OptionAnswer, AllocError>
    ensures { IfOk result (λ answer. answer ≡ goes_on (OptionReply.Refused error ∷ []) agreed) }
{
    let replies = one(alloc, OptionReply::Refused(error))?;
    Ok(OptionAnswer::new(replies, agreed, Next::Option))
}

fn size_reply() -> OptionReply
    ensures { result ≡ size_reply }
{
    OptionReply::Info(Information::BlockSize {
        minimum: MINIMUM,
        preferred: PREFERRED,
        maximum: MAXIMUM,
    })
}

// The transmission flags of the export.
fn export_flags(offer: &OfferedExport, agreed: Agreed) -> u16
    ensures { result ≡ export_flags offer.now agreed.flags }
{
    transmission_flags(agreed.flags.structured, offer.flushes())
}

fn export_reply(offer: &OfferedExport, agreed: Agreed) -> OptionReply
    ensures { result ≡ export_reply offer.now agreed }
{
    OptionReply::Info(Information::Export {
        size: offer.size(),
        flags: export_flags(offer, agreed),
    })
}

// The answer to an EXPORT_NAME, which can't be refused: another name ends the session.
fn name_export(alloc: Global, name: &Text, agreed: Agreed, offer: &OfferedExport) -> OptionAnswer
    ensures { result ≡ named agreed offer.now name.now }
{
    if !offer.is_named(name.as_bytes()) {
        return OptionAnswer::new(Vec::new(alloc), agreed, Next::Fault);
    }
    let export = ExportAnswer {
        size: offer.size(),
        flags: export_flags(offer, agreed),
        zeroes: !agreed.no_zeroes,
    };
    OptionAnswer::begin(alloc, export, agreed)
}

fn inform(
    alloc: Global,
    asked: &InfoRequest,
    agreed: Agreed,
    offer: &OfferedExport,
    next: Next,
) -> Result<OptionAnswer, AllocError>
    ensures { IfOk result (λ answer. answer ≡ informed agreed offer.now asked.now next) }
{
    if !offer.is_named(asked.name()) {
        return refuse(alloc, agreed, OptionError::Unknown);
    }
    let export = export_reply(offer, agreed);
    if !asked.types().contains(&INFO_BLOCK_SIZE) {
        let replies = two(alloc, export, OptionReply::Ack)?;
        return Ok(OptionAnswer::new(replies, agreed, next));
    }
    let mut replies = two(alloc, export, size_reply())?;
    replies.push(OptionReply::Ack)?;
    Ok(OptionAnswer::new(replies, agreed, next))
}

// Whether this is one of the queries.
fn asks_for(queries: &[Text], text: &[u8]) -> bool
    ensures { result ≡ asks_for text.now queries.now }
{
    queries.iter().any(|query| query.as_bytes() == text)
}

fn context_reply(alloc: Global, id: u32) -> Result<OptionReply, AllocError>
    ensures { IfOk result (λ reply. reply ≡ context_reply id) }
{
    let name = Text::from_slice(alloc, ALLOCATION)?;
    Ok(OptionReply::MetaContext { id, name })
}

fn list(
    alloc: Global,
    asked: &ContextRequest,
    agreed: Agreed,
    offer: &OfferedExport,
) -> Result<OptionAnswer, AllocError>
    ensures { IfOk result (λ answer. answer ≡ listed agreed offer.now asked.now) }
{
    if !agreed.flags.structured {
        return refuse(alloc, agreed, OptionError::Invalid);
    }
    if !offer.is_named(asked.name()) {
        return refuse(alloc, agreed, OptionError::Unknown);
    }
    let queries = asked.queries();
    let replies = if queries.is_empty()
        || asks_for(queries, BASE)
        || asks_for(queries, ALLOCATION)
    {
        two(alloc, context_reply(alloc, LISTED)?, OptionReply::Ack)?
    } else {
        one(alloc, OptionReply::Ack)?
    };
    Ok(OptionAnswer::new(replies, agreed, Next::Option))
}

fn select(
    alloc: Global,
    asked: &ContextRequest,
    agreed: Agreed,
    offer: &OfferedExport,
) -> Result<OptionAnswer, AllocError>
    ensures { IfOk result (λ answer. answer ≡ selected agreed offer.now asked.now) }
{
    let context = agreed.flags.structured
        && offer.is_named(asked.name())
        && asks_for(asked.queries(), ALLOCATION);
    let now = with_context(agreed, context);
    if !agreed.flags.structured {
        return refuse(alloc, now, OptionError::Invalid);
    }
    if !offer.is_named(asked.name()) {
        return refuse(alloc, now, OptionError::Unknown);
    }
    let replies = if context {
        two(alloc, context_reply(alloc, SELECTED)?, OptionReply::Ack)?
    } else {
        one(alloc, OptionReply::Ack)?
    };
    Ok(OptionAnswer::new(replies, now, Next::Option))
}
