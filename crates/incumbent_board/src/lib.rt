//! The best standing so far of a search by several workers, on a cell of six words that all of them share without a lock.
//! What stood on it is one history, in which each standing is better than the one before. No call but the one that starts
//! a board takes memory.
#![tactic(auto)]

mod board;
mod cell;
mod closing;
mod laws;
mod offer;
mod seat;
mod sending;
mod sight;
mod six_words;
mod starting;

pub use board::Board;
pub use laws::{seats_stay, words_spell_standings};
pub use offer::Offer;
pub use seat::BoardSeat;
pub use sending::{sent_seat, shared_board};
