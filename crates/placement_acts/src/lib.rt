//! What an act that makes a placement leads to: the next placement, or the refusal that is due. Definitions that contracts
//! cite; there is no code.
#![tactic(auto)]
