// No code: the crate holds the three demands on a deciding program.
#![tactic(auto)]
