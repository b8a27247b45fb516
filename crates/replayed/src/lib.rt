// The crate holds what is proved of replaying a drive (document 02, ticket 8), over its definitions. Nothing runs here.
#![tactic(auto)]
