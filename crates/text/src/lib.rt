// Texts: a file's bytes cut into lines and parts that borrow from it, and the numbers that parts write.

#![tactic(auto)]

pub mod tokens;
pub mod values;

pub use tokens::{Lexer, Token};
pub use values::value;
