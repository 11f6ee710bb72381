//! The types of requests, replies, points and placements, and the definitions that contracts cite.
#![tactic(auto)]

pub mod act;
pub mod answer;
pub mod content;
mod copies;
pub mod duplicate;
pub mod limits;
pub mod memory;
pub mod placement;
pub mod point;
pub mod reason;
pub mod replica;
pub mod rules;
pub mod seq;
pub mod text;
pub mod turn;

pub use act::{Act, Fate, ReadLevel, WriteLevel};
pub use answer::{Answer, RepairLine, StatusLine};
pub use content::Content;
pub use duplicate::Duplicate;
pub use memory::Memory;
pub use placement::{Assignment, Instance, Placement, ShardState};
pub use point::{Key, Matcher, Page, Pick, Point, Series};
pub use reason::{Damage, Reason};
pub use replica::{BlockDigest, Report, Standing, Work};
pub use rules::{MetaState, Rules, Space};
pub use seq::Seq;
pub use text::Text;
pub use turn::{Reply, Request, Turn};
