//! Tests of the server over loopback sockets, with both ends in one process. They stand beside it, because a crate with tests is proved
//! twice.
#![tactic(auto)]

#[cfg(test)]
mod client;
#[cfg(test)]
mod loopback_tests;
#[cfg(test)]
mod snapshot;
#[cfg(test)]
mod trusted_tests;
