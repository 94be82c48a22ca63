// No code: the crate holds what it means that a contract leaves one answer.
#![tactic(auto)]
