use replica_machine::of_m3_model::Reason;
use thiserror::Error;

/// Why a replica wasn't called, or what it was refused for.
#[derive(Debug, Drop, Error)]
pub enum CallErr {
    /// The replica's reason, or `NotOwned` where the slot has none.
    #[error("the replica refused: {0:?}")]
    Refused(Reason),
    /// The list of events has no room for a call and its answer.
    #[error("the list of events is full")]
    Full,
}
