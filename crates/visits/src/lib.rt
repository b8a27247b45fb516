// The crate holds definitions and their laws: how many rows reading and writing visit. Nothing runs here.
#![tactic(auto)]
