// Refusals 4 and 5 (01, Refusal numbers), by the names of the left sides in order.
#![tactic(auto)]

pub mod lefts;
