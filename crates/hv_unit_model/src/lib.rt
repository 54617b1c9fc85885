//! The bins of coding tree units, and the syntax of slice data (7.3.8) as definitions,
//! for every unit of this profile. They stand in `specs/`; the functions here are empty, and each
//! carries a law of the definitions as its contract.
#![tactic(auto)]

mod unit_laws;

pub use unit_laws::{
    addresses_are_places, bins_in_block_are_those_in_picture, blocks_around_are_those_of_picture,
    coding_tree_units_are_read, nodes_are_read_back, nodes_are_squares,
    nodes_ask_for_variables_that_are_there, nodes_have_their_squares, offsets_are_read_back,
    offsets_ask_for_variables_that_are_there, places_have_addresses, plans_are_appended,
    read_nodes_may_be_coded, read_offsets_may_be_coded, read_slice_data_may_be_coded,
    sites_are_there, slice_data_is_read_back,
};
