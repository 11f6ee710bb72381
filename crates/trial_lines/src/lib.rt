//! Inputs of cases: parts, each a head with the lines below it; the scripts that these lines spell; what the words of a head say; outcomes
//! with stars; cases played once, or for each number of a span and each of some picks, and what is told of them; and streams in memory that give
//! and take pieces of sizes, fail at calls, and note each call.
#![tactic(auto)]

pub mod case_err;
pub mod cases;
pub mod heads;
pub mod outcomes;
pub mod parts;
pub mod scripts;
pub mod streams;

pub use case_err::CaseErr;
pub use cases::{Case, Player, Went, is_outcome, play_all};
pub use heads::{Signs, check_words, has_word, number, numbers, slot, span, value_of, with_number};
pub use outcomes::fits;
pub use parts::{Part, parts_of};
pub use scripts::{script, text_of};
pub use streams::{TrialSink, TrialSource, line_sizes};
