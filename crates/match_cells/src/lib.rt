// The work cells of a plain grammar on a text, filled from the text's end (01, Meaning of a match).
#![tactic(auto)]

pub mod filling;
pub mod tasks;
