//! What stands in replies and needs no placement: how an object's fields and an array's items are put one after the other,
//! lists in the order of names, and the objects of refusals.
#![tactic(auto)]

pub mod digest;
pub mod fields;
pub mod order;
pub mod refusal;
pub mod rows;
pub mod words;

pub use digest::hex_value;
pub use fields::{put_bool, put_number, put_text, put_value};
pub use order::Roll;
pub use refusal::{
    clock_value, corrupt_value, group_value, limit_value, plain_value, replica_value, state_value,
    unknown_value,
};
pub use rows::{push_number, push_text};
pub use words::{standing_text, state_text};
