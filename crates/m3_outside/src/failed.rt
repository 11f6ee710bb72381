use thiserror::Error;

/// A call that failed. The count of faults of the object that was called rose in that call.
#[derive(Clone, Copy, Debug, PartialEq, Eq, Error)]
#[error("a call failed")]
pub struct Failed;
