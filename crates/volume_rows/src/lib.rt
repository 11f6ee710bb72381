//! One series of a volume, or those from an identifier on, read without reading the volume whole: a caller keeps the volume's bloom
//! filter and summaries, and a look-up then reads a piece of the index, and the records of these series. For one series the piece has
//! 16 entries at most.
#![tactic(auto)]

mod entries;
mod parts;
mod ranges;
mod records;
mod rows;
mod seeker;

pub use ranges::{RowRange, rows_from};
pub use rows::row_of;
pub use seeker::{Seeker, seeker_of};
