//! The names that files of the format, and the folders of slots, have on the host.
#![tactic(auto)]

pub mod reading;
pub mod spelling;

pub use reading::name_of;
pub use spelling::{NAME_ROOM, add_folder, add_name};
