//! What tests ask of a cluster, spelled as words, also at random, and what it answers, as texts.
#![tactic(auto)]

pub mod acts;
pub mod answers;
pub mod lists;
pub mod scripts;
pub mod words;

pub use acts::act_of;
pub use answers::{
    letter_of_node, letter_of_reason, spell, spell_found, spell_placement, spell_reply,
    spell_standing, spell_status, spell_swept,
};
pub use lists::{fates, one_matcher, three_nodes};
pub use scripts::{Dice, add_fetch, add_match, add_write, script, upkeep_script};
pub use words::{identifier, letter_of, name, number, read_level, text, value, write_level};
