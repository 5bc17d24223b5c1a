//! The text of plans.
#![tactic(auto)]

mod adding;
mod collecting;
mod dialects;
mod due;
mod feed;
mod feed_laws;
mod fields;
mod gathered_line;
mod head;
mod head_lines;
mod kind;
mod laws;
mod lines;
mod pieces;
mod places;
mod placing;
mod plan_item;
mod plan_line;
mod printing;
mod reading;
mod record_lines;
mod records;
mod stop;
mod writing;

pub use collecting::record_of;
pub use dialects::{MOST_GAP_NODES, first_line, plan_dialect};
pub use feed::PlanFeed;
pub use feed_laws::{
    cut_anywhere, each_fault_is_met, fault_is_last, gathered_is_summary, items_in_order,
    items_of_the_plan,
};
pub use head::push_path;
pub use kind::{PlanFault, PlanKind, plan_kind_name};
pub use laws::{
    first_fault_decides, gap_text_reads_back, kinds_by_table, one_gap_a_text, one_plan_a_text,
    one_text_a_gap, one_text_a_plan, plan_text_is_short, plan_text_reads_back,
    same_search_same_texts, summary_decides,
};
pub use placing::{are_in_place, has_letters};
pub use plan_item::{Fed, PlanItem, Step};
pub use plan_line::{Dialect, Family};
pub use printing::{print_gap, print_plan, print_plan_as_gap, print_plan_for, print_plan_in};
pub use reading::{read_gap, read_plan};
pub use stop::PlanStop;
