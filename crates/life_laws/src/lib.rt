//! Laws over disks that stand for a life of runs: of broken lives, for which none stand.
#![tactic(auto)]

pub mod lives;
