//! What is decoded behind the nodes of a coding tree block, by recursion over its quadtree.

ghost use Rattle.hv_recon.specs.DecodedNodes.{LeavesDecodeAsNodes, NodesOutsideDecodeNothing, SplitNodesDecodeByChildren, GreatestNodesAreBlocks};

/// Where a node of a coding tree block is one coding unit inside the picture, what is decoded
/// behind it as a leaf is decoded behind it as a node of the quadtree (7.3.8.4). It takes no
/// memory.
pub fn leaves_decode_as_nodes()
    ensures { LeavesDecodeAsNodes }
{}

/// Behind a node whose upper left corner lies outside the picture the same is decoded and seen as
/// before it, whatever stands in its place. It takes no memory.
pub fn nodes_outside_decode_nothing()
    ensures { NodesOutsideDecodeNothing }
{}

/// Behind a node that is split, what its fourth child leaves is decoded and seen, when each of the
/// four decodes what the one before leaves. It takes no memory.
pub fn split_nodes_decode_by_children()
    ensures { SplitNodesDecodeByChildren }
{}

/// What is decoded behind the node of 64x64 is decoded behind the coding tree block, whatever stood
/// in its place. It takes no memory.
pub fn greatest_nodes_are_blocks()
    ensures { GreatestNodesAreBlocks }
{}
