//! Resources of a module: data that a program asks for by a type and an identifier ("32-bit Linear eXecutable Module
//! Format": "Resource Table").
#![tactic(auto)]

mod finding;

pub use finding::find;
