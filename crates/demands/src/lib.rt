// Demand 2 and the table of refusals on the public definitions: see specs/.
#![tactic(auto)]
