// No code: over right cells the node list is that of the one derivation. See specs/.
#![tactic(auto)]
