// No code: the crate holds what comes back from a decision, in the answer and in the two lent lists.
#![tactic(auto)]
