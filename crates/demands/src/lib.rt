// The three demands, as theorems over any calls made of a fresh join. No code.
#![tactic(auto)]
