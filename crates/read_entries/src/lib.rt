// What is stored in a table while a text is read: a record for each symbol and each terminal, once, and the words of each expression.
#![tactic(auto)]

pub mod entries;
pub mod leaves;
pub mod parts;
