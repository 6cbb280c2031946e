//! Tests of whole sessions over streams, against bytes written by hand. They stand beside their crate, because a crate with
//! tests is proved twice.
#![tactic(auto)]

#[cfg(test)]
mod export;
#[cfg(test)]
mod failing;
#[cfg(test)]
mod fakes;
#[cfg(test)]
mod interrupted;
#[cfg(test)]
mod room_tests;
#[cfg(test)]
mod row;
#[cfg(test)]
mod stream_tests;
#[cfg(test)]
mod write_tests;
