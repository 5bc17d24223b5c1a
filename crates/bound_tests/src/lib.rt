//! What masses, walks, bounds, the opening, the closing of a prefix and the records of one worker and of several come to on
//! worked scenarios, and the verdicts on plans and gap plans, by public calls alone. There is no code here but tests: they
//! stand apart so that a crate need not be proved once more for them.
#![tactic(auto)]

#[cfg(test)]
mod backward_masses;
#[cfg(test)]
mod beliefs;
#[cfg(test)]
mod cores;
#[cfg(test)]
mod edge_bounds;
#[cfg(test)]
mod exchange_bounds;
#[cfg(test)]
mod gap_checks;
#[cfg(test)]
mod gap_plans;
#[cfg(test)]
mod gathers;
#[cfg(test)]
mod mean_bounds;
#[cfg(test)]
mod nodes;
#[cfg(test)]
mod openings;
#[cfg(test)]
mod scenarios;
#[cfg(test)]
mod scouts;
#[cfg(test)]
mod tangent_bounds;
#[cfg(test)]
mod two_looks;
#[cfg(test)]
mod verdicts;
#[cfg(test)]
mod walks;
