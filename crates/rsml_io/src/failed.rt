use thiserror::Error;

/// A read or a write was refused.
#[derive(Clone, Copy, Debug, PartialEq, Eq, Error)]
#[error("refused")]
pub struct Failed;
