// Odd lines and odd inputs, run.
#![tactic(auto)]

#[cfg(test)]
mod inputs;
#[cfg(test)]
mod orders;
