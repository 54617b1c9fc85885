//! Definitions and lemmas on lists, numbers, digits and truth values that several crates need, and
//! that speak of no codec. They stand in `specs/` and `proofs/`.
#![tactic(auto)]
