//! What holds of units that are sent again.

ghost use Rattle.rtp_media_runs.specs.Codecs.{AllGiveAgain, FirstFollow};

use h26x_payload_units::cut_law;
use payload_core_av1::{av1_law, av1_packets_law};

/// Each unit that a codec sends for a well-formed sample is a well-formed sample itself. Sent again
/// at the same limit by a packetizer that follows the first one, it is its own only unit, byte for
/// byte, and the second packetizer still follows the first: for every codec, with every option and
/// setting (`again`). To follow means to be in the same state, including picture ids; for H.264,
/// H.265 and H.266 it means to hold back no parameter set, and no NAL unit of the samples may be
/// dropped for its size or end in a zero byte. Packetizers that start alike follow each other
/// (`first`).
pub fn again_law()
    ensures again { AllGiveAgain }
    ensures first { FirstFollow }
{
    av1_law();
    av1_packets_law();
    cut_law();
}
