// No code: the crate holds that the order of the assumptions does not matter.
#![tactic(auto)]
