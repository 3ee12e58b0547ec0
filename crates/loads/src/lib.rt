//! Kinds of load: what a booking takes of a channel or a crew pool, told by counts alone.
#![tactic(auto)]

pub mod airtime;
pub mod crews;
pub mod kind;
pub mod meaning;
pub mod pair;
pub mod word;
