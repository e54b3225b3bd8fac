// A grammar that is written and read again: see specs/.
#![tactic(auto)]
