// No code: the crate holds Euclid's rule as a definition and the laws of whole numbers.
#![tactic(auto)]
