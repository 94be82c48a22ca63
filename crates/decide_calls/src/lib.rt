// No code: the crate holds what two calls of `decide` leave, whatever the order of the assumptions.
#![tactic(auto)]
