// The crate gathers what is proved of the demands, in one record. Nothing runs here.
#![tactic(auto)]
