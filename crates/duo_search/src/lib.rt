//! Two searchers who move and look in each period, as one searcher of a product scenario: each of its positions says
//! where both are. What is planned for it is planned for both, and has an ordinary certificate.
#![tactic(auto)]

mod faults;
mod laws;
mod looks;
mod making;
mod moves;
mod names;
mod paths;

pub use faults::DuoFault;
pub use laws::{
    no_pair_finds_more, pair_is_value, paths_are_pairs, product_is_one, product_stands_for,
    worked_pairs,
};
pub use making::product;
pub use paths::{first_of, second_of};
