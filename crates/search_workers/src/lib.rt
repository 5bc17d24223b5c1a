//! The workers of a search: each closes prefixes at a desk of its own, shares what is to be closed through a pool of
//! deques, and the best standing through a board.
#![tactic(auto)]

mod agenda;
mod answer;
mod children;
mod closing;
mod crew;
mod desk;
mod finish;
mod gate;
mod harvest;
mod incumbent;
mod joins;
mod left;
mod muster;
mod next;
mod pause;
mod room;
mod rounds;
mod run;
mod scouting;
mod searching;
mod sending;
mod stack;
mod worker;

pub use agenda::Order;
pub use answer::{Found, Partial, SearchStop};
pub use gate::{Gate, OpenGate};
pub use left::Left;
pub use rounds::ROUNDS;
pub use searching::search;
pub use sending::sent_worker;
pub use worker::Worker;
