//! Lemmas of lists, Booleans and numbers, for the proofs of all crates: what std does not have, or has in another form.
#![tactic(auto)]
