// The crate holds definitions and their laws: an LM by name, demand 3 for it, the layout of ISO 16460:2021, clause 5, and
// document 01's marked cases. Nothing runs here.
#![tactic(auto)]
