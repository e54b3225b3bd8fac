// The text of a grammar that a table holds (01, Writing), from its parts.
#![tactic(auto)]

pub mod texts;
