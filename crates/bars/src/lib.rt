// The bar book: anchorages and laps of single ribbed bars.

#![tactic(auto)]

mod books;
mod details;
mod factors;
mod lengths;
pub mod lines;
pub mod names;
mod rules;
mod tested;
mod trial;

pub use books::BarBook;
pub use lines::BarLine;
