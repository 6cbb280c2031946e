//! The server: clients of one image over sockets, each served by a worker, with a flusher and a checkpointer.
#![tactic(auto)]

mod asked;
mod client;
mod client_registry;
mod in_flight;
mod listener;
mod name;
mod request_handler;
mod serving;
mod session_pass;
mod watch;
mod worker;

pub use client::Client;
pub use listener::Listener;
pub use request_handler::RequestHandler;
pub use serving::{read_to_end_of, serve};
pub use watch::{Event, Traffic, Watch, Watched};
