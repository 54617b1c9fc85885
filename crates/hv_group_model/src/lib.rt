//! The structure of a group of pictures as a definition: coding order, depths, references and
//! reference sets (8.3).
#![tactic(auto)]
