//! A book: one list of entries that all threads agree on. Of the list an atomic word keeps the length alone, and each thread's seat
//! knows the beginning that it has seen.
#![tactic(auto)]

mod blank;
mod book;
mod book_name;
mod entries;
mod rule;
mod seat;
mod steps;
mod view;

pub use blank::Blank;
pub use book::{Book, Full};
pub use book_name::BookName;
pub use entries::Entries;
pub use seat::Seat;
pub use view::{Ended, Made, View};
