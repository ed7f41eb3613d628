// What is printed of a text: its doors, or its first fault.
#![tactic(auto)]

mod doors_print;
mod fault_print;
mod words;

pub use doors_print::print_doors;
pub use fault_print::print_fault;
pub use words::{Word, put_line};
