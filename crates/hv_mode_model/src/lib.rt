//! The encoder's own choice for a coding tree block as a definition, in `specs/`: which nodes are
//! split, how each coding unit is predicted, and its levels. H.265 leaves it free. The functions
//! here are empty, and each carries a law of the definition as its contract.
#![tactic(auto)]

mod distance_laws;
mod least_laws;
mod mode_laws;
mod neighbour_laws;
mod node_laws;

pub use distance_laws::{i_slices_ask_for_no_vectors, nothing_found_asks_for_no_distances};
pub use least_laws::first_least_is_chosen;
pub use mode_laws::{
    choices_in_block_are_those_in_picture, chosen_nodes_are_decoded, chosen_nodes_may_be_coded,
    chosen_trees_are_decoded, chosen_trees_may_be_coded, coded_nodes_have_their_vectors,
    coded_trees_have_their_vectors, every_chosen_sample_is_decoded, i_slices_are_intra_alone,
    nothing_found_is_intra_alone, vectors_are_those_found,
};
pub use neighbour_laws::neighbourhoods_in_block_are_those_in_picture;
pub use node_laws::{choices_go_by_nodes, pictures_go_by_nodes};
