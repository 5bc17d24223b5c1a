//! The text of a scenario: its lines are read one after the other, and the canonical text is printed.
#![tactic(auto)]

mod assembling;
mod cell_names;
mod cells;
mod digits;
mod draft;
mod drifts;
mod kind;
mod laws;
mod line;
mod line_rows;
mod lists;
mod number_field;
mod pair;
mod pairs;
mod printing;
mod reading;
mod row_sorts;
mod rows;
mod rows_in_period;
mod scenarios;
mod shorthands;
mod steady;
mod stop;
mod sweeps;
mod taking;
mod taking_line;

pub use kind::{TextFault, TextKind, text_kind_name};
pub use laws::{
    canonical_front_reads_back, canonical_text_reads_back, canonical_version,
    every_text_spells_one, first_fault_decides, first_fault_decides_alone, front_ignores_rest,
    grid_in_rows, grid_reads_on, kinds_in_order, one_problem_a_text, rate_in_rows,
    silent_lines_add_nothing, spread_in_rows, worked_texts, worked_texts_of_version_2,
};
pub use printing::print_scenario;
pub use scenarios::{read_scenario, read_scenario_alone};
pub use stop::TextStop;
