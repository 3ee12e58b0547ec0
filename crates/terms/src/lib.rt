//! What every layer shares: the refusals and their numbers, references, windows.
#![tactic(auto)]

pub mod reference;
pub mod refusal;
pub mod window;
