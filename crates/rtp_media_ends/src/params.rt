//! How a sending stream sends.

ghost use Rattle.std.specs.Prelude.{◌≡◌, IsTrue, ◌↔◌};
ghost use Rattle.std.specs.Option.{option_map};
ghost use Rattle.rtp_media_ends.specs.Params.{IsSound, is_redundancy, is_sound_params, rise_above};

use rtp_wire::Pt;
use std::marker::Model;

/// The distances of the older payloads sent with each payload (RFC 2198): increasing, from 1 to 8.
/// If empty, payloads have the RED layout without redundancy.
#[derive(Debug, Drop)]
pub struct Distances {
    distances: Vec<u8>,
}

impl Model for Distances {
    ghost use Rattle.std.specs.Prelude.{List, ℕ};

    ghost Value = { List ℕ };

    ghost view = { λ d. d.distances.items };
}

impl Distances {
    /// These distances.
    pub fn from_vec(distances: Vec<u8>) -> Self
        ensures { result ≡ distances.items }
    {
        Distances { distances }
    }

    /// The distances.
    pub fn as_slice(&self) -> &[u8]
        ensures { result.now ≡ self.now }
    {
        self.distances.as_slice()
    }
}

/// How a sending stream numbers and cuts its samples.
#[derive(Debug, Drop)]
pub struct StreamParams {
    /// The first sequence number, below 32,768.
    pub first: u64,
    /// The maximum payload size in bytes: at least 1, with redundancy at least 2.
    pub mtu: usize,
    /// The maximum datagram size in bytes.
    pub limit: usize,
    /// The distances of redundancy (RFC 2198): None for a stream without it, and for a row without a RED
    /// type.
    pub red: Option<Distances>,
    /// The first picture id of a row of VP8 or VP9, at most 32,767; payloads of other codecs have none.
    pub picture_id: Option<u16>,
    /// Whether payloads use the options that browsers need: VP8's picture id 0 is written like any
    /// other (RFC 7741 4.2), and VP9's packets say whether their frame is predicted (RFC 9628 4.2).
    /// Otherwise VP8 frames with id 0 carry no id, and all VP9 frames look like key frames. Other
    /// codecs' payloads don't change.
    pub for_browsers: bool,
}

/// Whether distances rise strictly, and are 1 to 8.
fn are_distances(distances: &[u8]) -> bool
    ensures { result ≡ rise_above 0 distances.now }
{
    let mut least = 0;
    for distance in distances {
        if *distance <= least || *distance > 8 {
            return false;
        }
        least = *distance;
    }
    true
}

fn is_redundancy(red: Option<Pt>, mtu: usize, distances: Option<&Distances>) -> bool
    ensures { result ≡ is_redundancy red mtu (option_map (λ ds. ds.now) distances.entry) }
{
    match distances {
        None => true,
        Some(distances) => red.is_some() && mtu >= 2 && are_distances(distances.as_slice()),
    }
}

impl StreamParams {
    /// Whether a stream may be opened with these, for a row with this RED type, or without one.
    pub fn is_sound(&self, red: Option<Pt>) -> bool
        ensures test { result ≡ is_sound_params red self.now }
        ensures sound { IsTrue result ↔ IsSound red self.now }
    {
        self.passes(red)
    }

    fn passes(&self, red: Option<Pt>) -> bool
        ensures { result ≡ is_sound_params red self.now }
    {
        self.first < 32768
            && self.mtu > 0
            && is_redundancy(red, self.mtu, self.red.as_ref())
            && match self.picture_id {
                Some(id) => id <= 0x7fff,
                None => true,
            }
    }
}
