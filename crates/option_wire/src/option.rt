ghost use Rattle.std.specs.Prelude.{◌≡◌, ◌≢◌, IfOk, IsErrOf};
ghost use Rattle.option_wire.specs.Field.{ContextAsked, InfoAsked, IsContext, IsInfo, context_data, info_data};
ghost use Rattle.option_wire.specs.declared.option.ClientOption.{ClientOption};
ghost use Rattle.option_wire.specs.Options.{IsOption, KeepsData};

use crate::error::OptionFault;
use crate::field::{read_queries, read_types, take_text};
use crate::text::Text;
use std::alloc::Global;
use std::marker::Model;

/// Goes on to transmission with the export of this name; it can't be refused.
pub const EXPORT_NAME: u32 = 1;
/// Ends the session.
pub const ABORT: u32 = 2;
/// Asks for the names of all exports.
pub const LIST: u32 = 3;
/// Asks for an encrypted session.
pub const STARTTLS: u32 = 5;
/// Asks what there is to know of an export.
pub const INFO: u32 = 6;
/// Asks the same, and goes on to transmission.
pub const GO: u32 = 7;
/// Turns replies in chunks on.
pub const STRUCTURED_REPLY: u32 = 8;
/// Asks for metadata contexts.
pub const LIST_META_CONTEXT: u32 = 9;
/// Selects metadata contexts.
pub const SET_META_CONTEXT: u32 = 10;

/// An option that a client sent ("Option types" of NBD's `proto.md`).
#[derive(Debug, Drop)]
pub enum ClientOption {
    /// [`EXPORT_NAME`]: all of the data are the name of the export.
    ExportName(Text),
    /// [`ABORT`], with any data.
    Abort,
    /// [`LIST`], with no data.
    ListExports,
    /// [`STARTTLS`], with any data.
    StartTls,
    /// [`INFO`].
    Info(InfoRequest),
    /// [`GO`].
    Go(InfoRequest),
    /// [`STRUCTURED_REPLY`], with no data.
    StructuredReply,
    /// [`LIST_META_CONTEXT`].
    ListMetaContext(ContextRequest),
    /// [`SET_META_CONTEXT`].
    SetMetaContext(ContextRequest),
    /// Any other option, by its number, with any data.
    Unknown(u32),
}

/// What an INFO or a GO asks for. Its data are the name as a string after its length in 32 bits, a count in 16
/// bits, and that many types of 16 bits.
#[derive(Debug, Drop)]
pub struct InfoRequest {
    name: Text,
    types: Vec<u16>,
}

impl Model for InfoRequest {
    ghost use Rattle.option_wire.specs.Field.{InfoAsked};

    ghost Value = { InfoAsked };

    ghost view = { λ asked. record { name = asked.name; types = asked.types.items } };
}

impl InfoRequest {
    /// The name of the export.
    pub fn name(&self) -> &[u8]
        ensures { result.now ≡ self.now.name }
    {
        self.name.as_bytes()
    }

    /// The types of information that are asked for, as [`crate::INFO_BLOCK_SIZE`], also unknown ones.
    pub fn types(&self) -> &[u16]
        ensures { result.now ≡ self.now.types }
    {
        &self.types
    }
}

/// What a LIST_META_CONTEXT or a SET_META_CONTEXT asks for. Its data are the name as a string after its length
/// in 32 bits, a count in 32 bits, and that many queries, each as the name.
#[derive(Debug, Drop)]
pub struct ContextRequest {
    name: Text,
    queries: Vec<Text>,
}

impl Model for ContextRequest {
    ghost use Rattle.option_wire.specs.Field.{ContextAsked};

    ghost Value = { ContextAsked };

    ghost view = { λ asked. record { name = asked.name; queries = asked.queries.items } };
}

impl ContextRequest {
    /// The name of the export.
    pub fn name(&self) -> &[u8]
        ensures { result.now ≡ self.now.name }
    {
        self.name.as_bytes()
    }

    /// The queries, in their order.
    pub fn queries(&self) -> &[Text]
        ensures { result.now ≡ self.now.queries }
    {
        &self.queries
    }
}

/// Reads an option by its number and its data. The data of an ABORT, of a STARTTLS and of an unknown option are
/// ignored, and may be any. Refusals 0 (no memory) and 5 (malformed: a LIST or a STRUCTURED_REPLY with data, or
/// lengths that don't add up to the data exactly).
pub fn decode_option(alloc: Global, code: u32, bytes: &[u8]) -> Result<ClientOption, OptionFault>
    // It is the one option whose data these are.
    ensures found { IfOk result (IsOption code bytes.now) }

    // No option of this number has these data.
    ensures none { IsErrOf result OptionFault.Malformed → (option : ClientOption) → IsOption code bytes.now option → ⊥ }

    // Only what is kept takes memory.
    ensures memory { IsErrOf result OptionFault.NoMemory → KeepsData code }
{
    match code {
        EXPORT_NAME => Ok(ClientOption::ExportName(Text::from_slice(alloc, bytes)?)),
        ABORT => Ok(ClientOption::Abort),
        LIST if bytes.is_empty() => Ok(ClientOption::ListExports),
        STARTTLS => Ok(ClientOption::StartTls),
        INFO => Ok(ClientOption::Info(read_info(alloc, bytes)?)),
        GO => Ok(ClientOption::Go(read_info(alloc, bytes)?)),
        STRUCTURED_REPLY if bytes.is_empty() => Ok(ClientOption::StructuredReply),
        LIST_META_CONTEXT => Ok(ClientOption::ListMetaContext(read_context(alloc, bytes)?)),
        SET_META_CONTEXT => Ok(ClientOption::SetMetaContext(read_context(alloc, bytes)?)),
        LIST | STRUCTURED_REPLY => Err(OptionFault::Malformed),
        _ => Ok(ClientOption::Unknown(code)),
    }
}

fn read_info(alloc: Global, bytes: &[u8]) -> Result<InfoRequest, OptionFault>
    ensures fits { IfOk result IsInfo }
    ensures found { IfOk result (λ asked. bytes.now ≡ info_data asked) }
    ensures none { IsErrOf result OptionFault.Malformed → (asked : InfoAsked) → IsInfo asked → bytes.now ≢ info_data asked }
{
    let Some((name, rest)) = take_text(bytes) else {
        return Err(OptionFault::Malformed);
    };
    let types = read_types(alloc, rest)?;
    let name = Text::from_slice(alloc, name)?;
    Ok(InfoRequest { name, types })
}

fn read_context(alloc: Global, bytes: &[u8]) -> Result<ContextRequest, OptionFault>
    ensures fits { IfOk result IsContext }
    ensures found { IfOk result (λ asked. bytes.now ≡ context_data asked) }
    ensures none { IsErrOf result OptionFault.Malformed → (asked : ContextAsked) → IsContext asked → bytes.now ≢ context_data asked }
{
    let Some((name, rest)) = take_text(bytes) else {
        return Err(OptionFault::Malformed);
    };
    let queries = read_queries(alloc, rest)?;
    let name = Text::from_slice(alloc, name)?;
    Ok(ContextRequest { name, queries })
}
