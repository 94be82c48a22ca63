// No code: the crate holds valuations, which are readings divided by their divisor, and the laws between the two.
#![tactic(auto)]
