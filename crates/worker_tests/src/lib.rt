//! Searches by workers, and what workers share, tried by threads through public calls alone. There is no code here but tests:
//! they stand apart so that a crate need not be proved once more for them.
#![tactic(auto)]

#[cfg(test)]
mod boards;
#[cfg(test)]
mod pools;
#[cfg(test)]
mod searches;
#[cfg(test)]
mod tickets;
