//! The transport of an end, as a browser is told of it.

use sdp_formats_grammar::Listed;
use sdp_formats_values::{Candidate, Fingerprint, IceCreds, Setup};

/// How a browser reaches an end (RFC 8839, RFC 8842).
#[derive(Debug, Drop)]
pub struct Transport {
    /// The credentials of connectivity checks: a name of 4 to 256 and a password of 22 to 256 letters, digits, `+` and
    /// `/` (RFC 8839 5.4).
    pub creds: IceCreds,
    /// Where the candidates are.
    pub gathering: Gathering,
    /// The fingerprint of the certificate (RFC 8122 5).
    pub fingerprint: Fingerprint,
    /// Which end opens the connection: `ActPass` in an offer, `Active` or `Passive` in an answer, and the same in each
    /// later answer (RFC 8842 5.2, 5.3).
    pub setup: Setup,
    /// Whether the end is ICE-lite: it only answers connectivity checks (RFC 8839 5.3).
    pub is_lite: bool,
}

/// Where the candidates of an end are.
#[derive(Debug, Drop)]
pub enum Gathering {
    /// They come later, one by one (RFC 8840).
    Trickling,
    /// These are all.
    Done(Listed<Candidate>),
}
