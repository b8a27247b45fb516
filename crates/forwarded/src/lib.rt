// The crate holds what is proved of forwarding (document 02, ticket 7), over its definitions. Nothing runs here.
#![tactic(auto)]
