//! Fields of a request line's JSON object: texts, names and numbers within bounds, and why a line is no request.
#![tactic(auto)]

pub mod fault;
pub mod fields;
pub mod names;

pub use fault::LineErr;
pub use fields::{
    Row, field, has_only, is_of_row, is_one_of, name_at, name_in, number_at, number_of, text_at,
    text_of, value_at,
};
pub use names::{is_name, is_tag_name};
