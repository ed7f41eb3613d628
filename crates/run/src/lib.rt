// A run of an accepted text: operations begin, wait, end and are withdrawn, above any waiting room.
#![tactic(auto)]

pub mod answer;
pub mod call;
pub mod fault;
pub mod replay;
pub mod state;
