//! Samples of each codec of which whole runs speak.

ghost use Rattle.rtp_media_runs.specs.WellFormed.{PicturesAreCarried, SoundIsCarried};

use payload_core_av1::av1_packets_law;

/// Of each codec there is a sample that is well-formed, as the headline asks, and whose units come through two hops, as
/// `second_hop_law` asks; and this unit comes of it.
pub fn well_formed_law()
    ensures sound { SoundIsCarried }
    ensures pictures { PicturesAreCarried }
{
    av1_packets_law();
}
