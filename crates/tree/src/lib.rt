//! An AVL tree in a table of records that the caller lends, for every key with a total order and every summary of a
//! subtree.
#![tactic(auto)]

mod balance;
mod change;
pub mod entry;
mod fork;
mod link;
pub mod node;
mod nodes;
mod side;
pub mod tree;
