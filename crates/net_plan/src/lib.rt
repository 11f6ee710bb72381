//! What becomes of the messages of a run: the fates of calls, the numbers that calls go by, and the writes held back.
#![tactic(auto)]

pub mod bag;
pub mod calls;
pub mod fate_key;
pub mod fates;
pub mod late_write;
pub mod laws;

pub use bag::Bag;
pub use calls::Calls;
pub use fate_key::FateKey;
pub use fates::{Fates, is_fates_row};
pub use late_write::LateWrite;
