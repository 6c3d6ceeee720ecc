use thiserror::Error;

/// A call on an object outside the program failed.
#[derive(Debug, Clone, Copy, PartialEq, Eq, Error)]
#[error("a call on an object outside the program failed")]
pub struct Failed;
