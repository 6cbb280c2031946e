//! Tests of devices, of a journal's area over a device that lies once a call has failed, and of a pool of frames beside plain lists.
//! They stand beside these crates, because a crate with tests is proved twice.
#![tactic(auto)]

#[cfg(test)]
mod areas;
#[cfg(test)]
mod both;
#[cfg(test)]
mod device_tests;
#[cfg(test)]
mod plain;
#[cfg(test)]
mod pool_tests;
#[cfg(test)]
mod scrambling;
#[cfg(test)]
mod scrambling_tests;
