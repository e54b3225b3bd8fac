// No code: BEGINNING, SUCCEED and ALT, and that they are the least sets by 01's rules. See specs/.
#![tactic(auto)]
