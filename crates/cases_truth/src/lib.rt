// No code: the crate holds what the laws say of some cases of document 01.
#![tactic(auto)]
