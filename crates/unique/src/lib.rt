// What it means that a contract leaves one result: said once, for every function. No code.
#![tactic(auto)]
