// No code: the crate holds the wrong programs that document 01 names, and that demand 2 rules each out.
#![tactic(auto)]
