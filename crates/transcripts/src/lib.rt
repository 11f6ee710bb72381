//! What a run promises of its requests and replies alone: nothing acknowledged is missing from a read, and each refusal
//! has its cause. Definitions that contracts cite; there is no code.
#![tactic(auto)]
