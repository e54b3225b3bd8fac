// Text to grammar, refusals 1 to 6: see specs/.
#![tactic(auto)]

pub mod syntax;
