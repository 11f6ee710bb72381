use thiserror::Error;

/// Why a run can't go on. Its last request gets no reply.
#[derive(Clone, Copy, Debug, PartialEq, Eq, Error)]
pub enum Lost {
    /// The meta disk failed. Its count of faults rose in that call.
    #[error("the meta disk failed")]
    Meta,
    /// Memory was wanted as the replicas of an `init` began, whose state is saved.
    #[error("out of memory")]
    Memory,
}
