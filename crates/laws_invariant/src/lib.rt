// No code: the crate holds what stays true of the table during a run.
#![tactic(auto)]
