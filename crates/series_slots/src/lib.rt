//! The slots of series, each series at its position: at a time stands a value, or room for one.
#![tactic(auto)]

pub mod indexed;
mod series_buffer;
pub mod series_key;

pub use indexed::IndexedSeries;
pub use series_key::SeriesKey;
