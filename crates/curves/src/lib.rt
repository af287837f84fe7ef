// Points of the handbook's tables and curves: lengths of straight bars in tension under the recommended annex.

#![tactic(auto)]

pub mod entries;
pub mod points;

pub use anchorage::{Bond, UnknownBond};
pub use entries::{Entry, FULL_STRESS, Joint};
pub use points::length;
