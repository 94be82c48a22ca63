// No code: the crate holds affine forms over exact fractions and their laws.
#![tactic(auto)]
