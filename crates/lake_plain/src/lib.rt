// No code: the plain grammar, its first calls and its loops, as 01 says them and as they are computed. See specs/.
#![tactic(auto)]
