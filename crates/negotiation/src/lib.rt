//! One connection of an NBD server over streams of bytes, from its first byte to its last: the handshake, the answers to options, and
//! the requests that an export answers.
#![tactic(auto)]

mod answer;
mod connection;
mod end;
mod hear;
mod in_flight;
mod laws;
mod offer;
mod option;
mod serve;
mod session;
mod stage;

pub use answer::{Agreed, Next, OptionAnswer};
pub use connection::{serve_session, transmit};
pub use end::End;
pub use hear::negotiate;
pub use in_flight::{ServeInFlight, SharedOutput, Transmission};
pub use laws::{one_dialog, one_hearing};
pub use offer::{MAX_EXPORT_NAME, OfferedExport, OfferedName};
pub use option::{answer_data, answer_option, refuse_option};
pub use serve::{Serve, answer_all};
pub use session::Session;
pub use stage::{MAX_OPTION_DATA, MAX_OPTION_THROWN_AWAY};
