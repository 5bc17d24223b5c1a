//! Reports of paths: what a search coordinator reads of one, as text and as JSON; and maps of where the target may be after
//! a prefix.
#![tactic(auto)]

mod course;
mod json;
mod laws;
mod maps;
mod report;

pub use json::push_report_json;
pub use laws::{masses_left_sum, masses_of_a_period, worked_maps, worked_reports};
pub use maps::push_map;
pub use report::{push_chance, push_report};
