// No code: the crate holds the starred cases of document 01, computed on the rules.
#![tactic(auto)]
