//! How the commands of `osp` end where ports fail, at limits of their input and over made texts, by `run` alone: what no case
//! of `worked_runs` says. There is no code here but tests: they stand apart so that a crate need not be proved once more for
//! them.
#![tactic(auto)]

#[cfg(test)]
mod commands;
#[cfg(test)]
mod hostile;
#[cfg(test)]
mod made;
#[cfg(test)]
mod trials;
