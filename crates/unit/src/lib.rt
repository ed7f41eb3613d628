// The whole unit: from the bytes of the input to the bytes of the output.
#![tactic(auto)]

mod prints;
mod rulings;
mod whole;

pub use whole::rule_on;
