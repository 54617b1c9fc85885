//! The samples of transform blocks as definitions: intra prediction (8.4.4.2), scaling and inverse
//! transform (8.6), and the encoder's own forward transform and quantisation.
#![tactic(auto)]
