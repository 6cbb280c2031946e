//! Tests of an order and of an export that threads share. They stand beside these crates, because a crate with tests is proved twice.
#![tactic(auto)]

#[cfg(test)]
mod flush_tests;
#[cfg(test)]
mod memory_file;
#[cfg(test)]
mod order_tests;
#[cfg(test)]
mod pass_tests;
#[cfg(test)]
mod requests;
#[cfg(test)]
mod second_handle_tests;
#[cfg(test)]
mod step_tests;
#[cfg(test)]
mod threads;
