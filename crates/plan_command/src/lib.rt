//! The commands of `osp`, from the words and the bytes read to the bytes written and the status.
#![tactic(auto)]

mod answer;
mod asked;
mod checking;
mod converting;
mod drilling;
mod flown;
mod gapping;
mod hearing;
mod input;
mod intake;
mod judge;
mod laws;
mod line;
mod made_laws;
mod made_plans;
mod mapping;
mod options;
mod pairing;
mod planning;
mod replanning;
mod request;
mod scenario_end;
mod serving;
mod spaces;
mod status;
mod top;
mod words;

pub use answer::Answer;
pub use bound_tree::MOST_NODES;
pub use flown::FlownWhy;
pub use laws::{what_is_gapped_is_accepted, what_is_planned_is_accepted};
pub use made_laws::{
    made_is_accepted, made_is_one_search, pair_refused_for_one_reason, paired_is_best,
    refused_for_one_reason, replanned_is_best,
};
pub use mapping::map_flown;
pub use pairing::{DuoWhy, pair};
pub use replanning::replan;
pub use request::{MOST_CLOSED, MOST_WORKERS, Request, WORKERS};
pub use search_workers::{Gate, OpenGate};
pub use status::{Refusal, Status, Stop, status_code};
pub use top::run;
pub use words::read_words;
