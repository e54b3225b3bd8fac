// The leaves of a text (01, Writing): bytes, names and terminals, written by a pen. A pen over no room only counts, so that the bytes needed are known before
// one is written.
#![tactic(auto)]

pub mod bytes;
pub mod leaves;
