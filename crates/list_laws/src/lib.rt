//! Lemmas on lists that the standard library lacks. There is no code here: the proofs of other crates import them.
#![tactic(auto)]
