// The lines of a log, ruled by a run, and what is printed for them.
#![tactic(auto)]

mod answer;
mod asking;
pub mod fault;
mod prints;
mod ruling;

pub use ruling::{print_totals, rule_line};
