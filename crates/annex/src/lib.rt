// The numbers that Eurocode 2 leaves to a national annex, the questions that every annex answers, and the recommended
// annex.

#![tactic(auto)]

pub mod numbers;
pub mod questions;

pub use numbers::{Factor, MULTIPLES, NUMBERS, Numbers, RECOMMENDED};
pub use questions::{Annex, Recommended};
