// A national annex: it starts with the recommended numbers, and is read from a text.

#![tactic(auto)]

mod acceptance;
pub mod annexes;
pub mod names;

pub use annexes::NationalAnnex;
pub use names::AnnexFields;
