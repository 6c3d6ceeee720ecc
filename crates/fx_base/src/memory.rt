use thiserror::Error;

/// Memory ran out.
#[derive(Debug, Clone, Copy, Error)]
#[error("memory ran out")]
pub struct NoMemory;
