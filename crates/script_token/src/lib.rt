//! The tokens of a script's text, with their lines.
//!
//! A text is cut into lexemes (`lexeme`), each of which is a token or white space (`kind`).
#![tactic(auto)]

pub mod kind;
pub mod lexeme;

pub use kind::{Symbol, Token, is_same};
pub use lexeme::{Placed, Tokens, scan, token_starts};
