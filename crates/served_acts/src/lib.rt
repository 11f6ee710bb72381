//! Which acts a cluster serves: a definition that contracts cite, with no code. It stands apart, so that one more act to be
//! served changes no crate but those that read lines and that serve them.
#![tactic(auto)]
