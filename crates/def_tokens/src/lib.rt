//! The tokens of a module definition file, with their lines (Toolkit tools reference, "Module
//! Definition Files").
#![tactic(auto)]

mod keyword;
mod lexer;
mod number;
mod token;

pub use lexer::Lexer;
pub use token::{Token, TokenAt};
