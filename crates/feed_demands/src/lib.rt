// What joinfeed prints, in the words of the demands. No code.
#![tactic(auto)]
