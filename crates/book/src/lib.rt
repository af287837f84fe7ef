// What a book is: rules for one kind of line, with two laws, and how a line is judged by it.

#![tactic(auto)]

pub mod books;
pub mod faults;
#[cfg(test)]
mod tests;
pub mod verdicts;
pub mod written;

pub use books::{Book, judge};
pub use faults::LineFault;
pub use verdicts::verdict;
pub use written::WrittenBook;
