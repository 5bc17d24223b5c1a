//! A pool of deques: each worker puts tasks into its own deque and takes them there, first in, first out, and steals from
//! the deques of the others. No call but those that make a pool and settle it takes memory, and none waits.
#![tactic(auto)]

mod deque;
mod hand;
mod kit;
mod making;
mod sending;
mod settling;
mod theft;
mod victim;

pub use kit::Kit;
pub use making::Pool;
pub use sending::sent_kit;
pub use settling::settle;
pub use theft::Theft;
