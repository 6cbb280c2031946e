use thiserror::Error;

/// Refusal 13 (no frame): no frame is in the list that one is wanted from.
#[derive(Clone, Copy, Debug, PartialEq, Eq, Error)]
#[error("no frame")]
pub struct NoFrame;
