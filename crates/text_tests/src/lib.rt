//! What is read of texts of scenarios and plans, and what is printed of these and of reports, row by row, by public calls
//! alone. There is no code here but tests: they stand apart so that a crate need not be proved once more for them.
#![tactic(auto)]

#[cfg(test)]
mod gap_texts;
#[cfg(test)]
mod plan_feeds;
#[cfg(test)]
mod plan_scenarios;
#[cfg(test)]
mod plan_tables;
#[cfg(test)]
mod plan_texts;
#[cfg(test)]
mod reports;
#[cfg(test)]
mod scenario_prints;
#[cfg(test)]
mod scenario_texts;
