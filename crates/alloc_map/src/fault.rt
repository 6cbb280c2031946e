use thiserror::Error;

/// Refusal 6 (bad map): bytes are no map, as a block has code 3, or a bit past the last block is set.
#[derive(Clone, Copy, Debug, PartialEq, Eq, Error)]
#[error("bad map")]
pub struct BadMap;
