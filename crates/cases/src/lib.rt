// Document 01's proved cases: one table, one theorem about the definitions (specs/).
#![tactic(auto)]
