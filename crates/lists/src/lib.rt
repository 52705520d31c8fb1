// The words for lists that the definitions of every other crate share, with their laws. No code.
#![tactic(auto)]
