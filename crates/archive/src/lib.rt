//! What a wave archive files: lines with load profiles, answered one by one, and totals that count each profile once.
#![tactic(auto)]

pub mod answer;
pub mod kind_name;
pub mod line;
mod print;
pub mod rejection;
pub mod report;
mod total;
