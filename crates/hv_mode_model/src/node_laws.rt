//! The choice asks for what motion search found only at nodes of the quadtree.

ghost use Rattle.hv_mode_model.specs.NodeLaws.{ChoicesGoByNodes, PicturesGoByNodes};

/// What is chosen for a node stays the same by other vectors, where these are the same at each node
/// of its block: at the corner that a node has in the picture, and with its side.
pub fn choices_go_by_nodes()
    ensures { ChoicesGoByNodes }
{}

/// So with all blocks of a picture: the trees that are chosen, what is coded of them, and what they
/// are decoded to.
pub fn pictures_go_by_nodes()
    ensures { PicturesGoByNodes }
{}
