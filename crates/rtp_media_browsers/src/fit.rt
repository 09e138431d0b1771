//! Valid ICE credentials, and the DTLS role.

ghost use Rattle.std.specs.Prelude.{◌≡◌};
ghost use Rattle.rtp_media_browsers.specs.Fit.{are_ice_chars, is_ice_char, is_setup, left_over, may_say, settled};

use sdp_formats_values::Setup;

/// Whether it is a letter, a digit, `+` or `/`.
fn is_ice_char(byte: u8) -> bool
    ensures { result ≡ is_ice_char byte }
{
    byte.is_ascii_alphanumeric() || byte == b'+' || byte == b'/'
}

/// Whether a text consists of at least `least` and at most 256 such characters.
pub(crate) fn are_ice_chars(least: usize, text: &str) -> bool
    ensures { result ≡ are_ice_chars least text.now }
{
    let bytes = text.as_bytes();
    if bytes.len() < least || bytes.len() > 256 {
        return false;
    }
    for byte in bytes {
        if !is_ice_char(*byte) {
            return false;
        }
    }
    true
}

/// Whether the role is active or passive, and the same as the other.
fn is_setup(setup: Setup, other: Option<Setup>) -> bool
    ensures { result ≡ is_setup setup other }
{
    matches!(
        (setup, other),
        (Setup::Active, Some(Setup::Active)) | (Setup::Passive, Some(Setup::Passive))
    )
}

/// Whether a DTLS role may be stated in an answer, or in an offer.
pub(crate) fn may_say(
    is_answer: bool,
    setup: Setup,
    before: Option<Setup>,
    remote: Option<Setup>,
) -> bool
    ensures { result ≡ may_say is_answer setup before remote }
{
    match (setup, before) {
        (Setup::ActPass, _) => !is_answer,
        (_, None) => !is_setup(setup, remote),
        (_, Some(_)) => is_setup(setup, before) && !is_setup(setup, remote),
    }
}

/// The DTLS role settled after an end's text.
pub(crate) fn settled(before: Option<Setup>, setup: Setup) -> Option<Setup>
    ensures { result ≡ settled before setup }
{
    match setup {
        Setup::ActPass => before,
        Setup::Active | Setup::Passive => Some(setup),
    }
}

/// The DTLS role that a browser's answer leaves to the end, if none was settled before.
pub(crate) fn left_over(before: Option<Setup>, remote: Option<Setup>) -> Option<Setup>
    ensures { result ≡ left_over before remote }
{
    match (before, remote) {
        (Some(_), _) => before,
        (None, Some(Setup::Active)) => Some(Setup::Passive),
        (None, Some(Setup::Passive)) => Some(Setup::Active),
        (None, _) => None,
    }
}
