// The crate holds definitions and their laws: items in order, which lists they allow, their bits, and what reading and writing them
// comes to. No table is known here, and nothing runs.
#![tactic(auto)]
