// Waiting rooms: a set of entries and a rule of choice.
#![tactic(auto)]

pub mod entry;
pub mod exact;
pub mod kept;
pub mod order;
pub mod orders;
#[cfg(test)]
mod tests;
pub mod waiting;

use crate::kept::Kept;
use crate::orders::{Age, Rank};

// The room by age: the smallest ticket is chosen.
pub type AgeRoom = Kept<Age>;

// The room by rank: the greatest rank is chosen, among equals the smallest ticket.
pub type RankRoom = Kept<Rank>;
