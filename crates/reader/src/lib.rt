// Reading a text under the names of its fields: a first line that bears each name once, in any order, then lines of
// values. What names there are is the caller's to say, by the trait `Named`.

#![tactic(auto)]

pub mod headers;
pub mod names;
pub mod numbers;

pub use headers::{Fields, Header, check};
pub use names::Named;
pub use numbers::number_at;
