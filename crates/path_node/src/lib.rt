//! Closing a node of a search tree.
#![tactic(auto)]

mod node;

pub use node::{Scratch, children, close};
