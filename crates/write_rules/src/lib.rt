// A grammar as text: see specs/.
#![tactic(auto)]
