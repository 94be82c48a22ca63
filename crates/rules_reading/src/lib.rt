// No code: the crate holds what a reading of a problem is, and what its assumptions force.
#![tactic(auto)]
