//! The fixed newstyle handshake of an NBD connection, as bytes and as values.
#![tactic(auto)]

mod error;
mod export;
mod field;
mod handshake;
mod head;
mod laws;
mod option;
mod reply;
mod text;

pub use error::{Malformed, OptionFault};
pub use export::{ExportAnswer, encode_export_answer};
pub use handshake::{ClientFlags, HandshakeFlags, decode_client_flags, greeting};
pub use head::{OptionHead, decode_option_head};
pub use laws::{one_option, one_option_reply};
pub use option::{
    ABORT, ClientOption, ContextRequest, EXPORT_NAME, GO, INFO, InfoRequest, LIST,
    LIST_META_CONTEXT, SET_META_CONTEXT, STARTTLS, STRUCTURED_REPLY, decode_option,
};
pub use reply::{
    INFO_BLOCK_SIZE, INFO_DESCRIPTION, INFO_EXPORT, INFO_NAME, Information, OptionError,
    OptionReply, encode_option_reply,
};
pub use text::Text;
