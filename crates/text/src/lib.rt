//! Bytes as text: hexadecimal digits, decimal numbers, lines; and how many byte strings differ.
#![tactic(auto)]

pub mod decimal;
pub mod distinct;
pub mod hex;
pub mod lines;
