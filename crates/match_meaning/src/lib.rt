// What a match means, by rules, and the laws of it: see specs/.
#![tactic(auto)]
