// Thin exports of functions that no C caller has otherwise, so that bench/ can count their instructions.
#![tactic(auto)]

mod whole_calls;
