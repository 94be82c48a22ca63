// No code: the crate holds the run that document 01 lays down.
#![tactic(auto)]
