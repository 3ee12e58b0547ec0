//! The byte format of a load profile: reading it, writing it, and that each load has just one writing.
#![tactic(auto)]

mod limits;
pub mod put;
pub mod read;
pub mod row;
mod walk;
pub mod write;
