//! What is read of the bins of slice data is what was coded.

ghost use Rattle.hv_unit_model.specs.UnitLaws.{OffsetsAreReadBack, NodesAreReadBack, CodingTreeUnitsAreRead, SliceDataIsReadBack, OffsetsThatAreReadMayBeCoded, NodesThatAreReadMayBeCoded, SliceDataThatIsReadMayBeCoded, OffsetsAskForVariablesThatAreThere, NodesAskForVariablesThatAreThere, SitesAreThere, AddressesArePlaces, PlacesHaveAddresses, NodesAreSquares, NodesHaveTheirSquares};
ghost use Rattle.hv_unit_model.specs.PlanLaws.{BlocksAroundAreThoseOfPicture, BinsInBlockAreThoseInPicture, PlansAreAppended};

/// At each coding tree block the script of sample adaptive offsets (7.3.8.3) reads the offsets from
/// their bins, where offsets are in their ranges and Cb and Cr have type and class in common.
pub fn offsets_are_read_back()
    ensures { OffsetsAreReadBack }
{}

/// The script of a coding quadtree (7.3.8.4) reads each tree that may be coded at a node from its
/// bins. It holds in slices of both kinds, with any number of references, behind any units coded
/// earlier whose modes are modes.
pub fn nodes_are_read_back()
    ensures { NodesAreReadBack }
{}

/// At each coding tree block the script of a coding tree unit (7.3.8.2) reads offsets, tree and
/// `end_of_slice_segment_flag` from their bins, where they may be coded there.
pub fn coding_tree_units_are_read()
    ensures { CodingTreeUnitsAreRead }
{}

/// The script of slice data (7.3.8.1) with any number of coding tree blocks reads the coding tree
/// units from their bins, where they may be coded there.
pub fn slice_data_is_read_back()
    ensures { SliceDataIsReadBack }
{}

/// Whatever answers the questions of sample adaptive offsets (7.3.8.3): what is read may be
/// coded.
pub fn read_offsets_may_be_coded()
    ensures { OffsetsThatAreReadMayBeCoded }
{}

/// Whatever answers the questions of a coding quadtree (7.3.8.4): the tree that is read may be
/// coded at its node, in an I slice, or in a P slice of one or two references.
pub fn read_nodes_may_be_coded()
    ensures { NodesThatAreReadMayBeCoded }
{}

/// Whatever answers the questions of slice data (7.3.8.1): the coding tree units that are read are
/// one for each block, and may be coded there.
pub fn read_slice_data_may_be_coded()
    ensures { SliceDataThatIsReadMayBeCoded }
{}

/// A picture of at least one luma sample a side has at least one coding tree block (6.5.1).
pub fn sites_are_there()
    ensures { SitesAreThere }
{}

/// Each address of the 64 squares of a coding tree block is that of its column and row, below 8
/// each (6.5.2).
pub fn addresses_are_places()
    ensures { AddressesArePlaces }
{}

/// Each column and row below 8 have an address below 64, whose column and row they are (6.5.2).
pub fn places_have_addresses()
    ensures { PlacesHaveAddresses }
{}

/// The squares of a node lie side by side, from its corner on.
pub fn nodes_are_squares()
    ensures { NodesAreSquares }
{}

/// Behind each node that may be coded as many more squares are known as it has: so an address is
/// the place of a square in the list of those coded earlier.
pub fn nodes_have_their_squares()
    ensures { NodesHaveTheirSquares }
{}

/// Every context of the bins of sample adaptive offsets has a variable in slices of each kind
/// (9.3.4.2).
pub fn offsets_ask_for_variables_that_are_there()
    ensures { OffsetsAskForVariablesThatAreThere }
{}

/// Every context of the bins of a tree that may be coded at a node has a variable in slices of its
/// kind (9.3.4.2).
pub fn nodes_ask_for_variables_that_are_there()
    ensures { NodesAskForVariablesThatAreThere }
{}

/// From a coding tree block the plans of the blocks around it, as far as they come before it, show
/// the same squares as the picture (6.4.1): in the columns and rows of squares from the one before
/// the block to the eighth behind it.
pub fn blocks_around_are_those_of_picture()
    ensures { BlocksAroundAreThoseOfPicture }
{}

/// The bins of a node are the same by what the blocks around show as by the picture.
pub fn bins_in_block_are_those_in_picture()
    ensures { BinsInBlockAreThoseInPicture }
{}

/// The squares of a plan come behind those of the plans of the blocks before.
pub fn plans_are_appended()
    ensures { PlansAreAppended }
{}
