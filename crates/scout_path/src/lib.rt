//! The scout: a quick flight to the end that finds a good path before a search begins. It is a rollout (Tesauro and
//! Galperin 1997; Bertsekas, Tsitsiklis and Wu 1997) over the mean bound (Martins 1993): a move is worth what the path
//! finds by which the mean bound after that move reaches its greatest sum.
#![tactic(auto)]

mod rollout;

pub use rollout::scout;
