// What a grammar is (01, Notation): see specs/.
#![tactic(auto)]
