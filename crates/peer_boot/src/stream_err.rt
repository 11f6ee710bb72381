use m3_model::Reason;
use thiserror::Error;

/// Why a stream ended early.
#[derive(Debug, Drop, Error)]
pub enum StreamErr {
    /// The former replica refused its fence or a page, for this reason.
    #[error("the former replica refused: {0:?}")]
    From(Reason),
    /// The joining replica refused to merge a page.
    #[error("the joining replica refused: {0:?}")]
    To(Reason),
    /// The list of events has no room for what comes next.
    #[error("the list of events is full")]
    Full,
}
