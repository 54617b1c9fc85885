//! What holds of a video that is encoded in pieces. No function here does anything: each contract
//! names a law, which is thereby proved.
#![tactic(auto)]

ghost use Rattle.hv_pieces.specs.Pieces.{StreamsBeginWithSets, StreamsAreJoined, ReconstructionsAreJoined, JoinedStreamsAreDecoded, ManyStreamsAreJoined};

use hv_model::{inter_encoding_appends, inter_reconstruction_appends, inter_streams_are_decoded};

/// The stream of pictures, of which there is one at least, begins with the parameter sets (7.3.2),
/// which depend on the settings alone.
pub fn streams_begin_with_sets()
    ensures { StreamsBeginWithSets }
{}

/// The stream of whole groups, of which there is one at least, and of any pictures behind them is
/// the stream of these groups, and then that of the pictures behind without its parameter sets.
pub fn streams_are_joined()
    ensures { StreamsAreJoined }
{
    inter_encoding_appends();
}

/// The reconstructed pictures are those of the groups, and then those of the pictures behind.
pub fn reconstructions_are_joined()
    ensures { ReconstructionsAreJoined }
{
    inter_reconstruction_appends();
}

/// With valid settings, the streams so joined decode (clauses 7 to 9 and Annex B) to the
/// reconstructed pictures of the groups, and then those of the pictures behind.
pub fn joined_streams_are_decoded()
    ensures { JoinedStreamsAreDecoded }
{
    streams_are_joined();
    reconstructions_are_joined();
    inter_streams_are_decoded();
}

/// The stream of a video that is cut into pieces, of which each but the last one is whole groups,
/// is the streams of its pieces one behind the other, the later ones without their parameter sets.
pub fn many_streams_are_joined()
    ensures { ManyStreamsAreJoined }
{
    streams_are_joined();
}
