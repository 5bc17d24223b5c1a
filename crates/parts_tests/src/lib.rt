//! What widths, ports, grids, drift, looks, paths, pairs of paths, forced paths, lines of text and made scenarios answer on
//! worked values, by public calls alone. There is no code here but tests: they stand apart so that a crate need not be proved
//! once more for them.
#![tactic(auto)]

#[cfg(test)]
mod drifts;
#[cfg(test)]
mod forcings;
#[cfg(test)]
mod grids;
#[cfg(test)]
mod makers;
#[cfg(test)]
mod models;
#[cfg(test)]
mod pairs;
#[cfg(test)]
mod ports;
#[cfg(test)]
mod rows;
#[cfg(test)]
mod sweeps;
#[cfg(test)]
mod tables;
#[cfg(test)]
mod threads;
#[cfg(test)]
mod widths;
