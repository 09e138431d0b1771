//! The lines of a section and of a session that are about its transport, and those that say how it is bundled.

ghost use Rattle.std.specs.Prelude.{◌≡◌, count_by};
ghost use Rattle.std.specs.List.{list_any};
ghost use Rattle.std.specs.Option.{option_copied};
ghost use Rattle.sdp_formats_data.specs.Lookups.{first_of};
ghost use Rattle.rtp_media_browsers.specs.ForEnds.{bundled};
ghost use Rattle.rtp_media_browsers.specs.Lines.{allows_mixed, bundle_in, is_bundle, is_bundle_name, is_bundle_only};
ghost use Rattle.rtp_media_browsers.specs.Lines.{is_crypto};
ghost use Rattle.rtp_media_browsers.specs.Lines.{is_session_transport, is_transport, says_mixed, stays};

use rtp_wire::Mid;
use sdp_formats_data::{MediaAttribute, Sdp, SessionAttribute};
use sdp_formats_grammar::{Listed, Text, stripped};

/// Whether the text allows one-byte and two-byte header extensions to be mixed.
fn says_mixed(text: &Text) -> bool
    ensures { result ≡ says_mixed text.now }
{
    text.as_str() == "extmap-allow-mixed"
}

/// Whether an attribute of a section is about its transport.
#[tactic(auto, unfolding(crate::specs::Lines::is_transport))]
fn is_transport(attribute: &MediaAttribute) -> bool
    ensures { result ≡ is_transport attribute.now }
{
    matches!(
        attribute,
        MediaAttribute::IceUfrag(_)
            | MediaAttribute::IcePwd(_)
            | MediaAttribute::IceOptions(_)
            | MediaAttribute::Fingerprint(_)
            | MediaAttribute::Setup(_)
            | MediaAttribute::RtcpMux
            | MediaAttribute::Candidate(_)
            | MediaAttribute::EndOfCandidates
    )
}

/// Whether an attribute of a session is about its transport, or lets header extensions be mixed.
#[tactic(auto, unfolding(crate::specs::Lines::is_session_transport))]
pub(crate) fn is_session_transport(attribute: &SessionAttribute) -> bool
    ensures { result ≡ is_session_transport attribute.now }
{
    match attribute {
        SessionAttribute::AllowMixedExts
        | SessionAttribute::IceLite
        | SessionAttribute::IceUfrag(_)
        | SessionAttribute::IcePwd(_)
        | SessionAttribute::IceOptions(_)
        | SessionAttribute::Fingerprint(_)
        | SessionAttribute::Setup(_)
        | SessionAttribute::Candidate(_)
        | SessionAttribute::EndOfCandidates => true,
        SessionAttribute::Unused(text) => says_mixed(text),
        _ => false,
    }
}

/// Whether an attribute of a session lets header extensions be mixed.
#[tactic(auto, unfolding(crate::specs::Lines::allows_mixed))]
fn is_mixing(attribute: &SessionAttribute) -> bool
    ensures { result ≡ allows_mixed attribute.now }
{
    match attribute {
        SessionAttribute::AllowMixedExts => true,
        SessionAttribute::Unused(text) => says_mixed(text),
        _ => false,
    }
}

/// Whether a session lets header extensions be mixed.
pub(crate) fn allows_mixed(attributes: &[SessionAttribute]) -> bool
    ensures { result ≡ list_any allows_mixed attributes.now }
{
    attributes.iter().any(|attribute| is_mixing(attribute))
}

/// Whether it is `a=bundle-only`.
#[tactic(auto, unfolding(crate::specs::Lines::is_bundle_only))]
fn is_bundle_only(attribute: &MediaAttribute) -> bool
    ensures { result ≡ is_bundle_only attribute.now }
{
    match attribute {
        MediaAttribute::Unused(text) => text.as_str() == "bundle-only",
        _ => false,
    }
}

/// Whether one of the attributes is `a=bundle-only`.
pub(crate) fn has_bundle_only(attributes: &[MediaAttribute]) -> bool
    ensures { result ≡ list_any is_bundle_only attributes.now }
{
    attributes.iter().any(|attribute| is_bundle_only(attribute))
}

/// Whether it is `a=crypto` (SDES keys).
#[tactic(auto, unfolding(crate::specs::Lines::is_crypto))]
fn is_crypto(attribute: &MediaAttribute) -> bool
    ensures { result ≡ is_crypto attribute.now }
{
    match attribute {
        MediaAttribute::Unused(text) => stripped(text.as_str(), "crypto:").is_some(),
        _ => false,
    }
}

/// Whether one of the attributes is a key in the text.
pub(crate) fn has_crypto(attributes: &[MediaAttribute]) -> bool
    ensures { result ≡ list_any is_crypto attributes.now }
{
    attributes.iter().any(|attribute| is_crypto(attribute))
}

/// Whether an attribute stays in a section that an end reads.
pub(crate) fn stays(closed: bool, attribute: &MediaAttribute) -> bool
    ensures { result ≡ stays closed attribute.now }
{
    !is_transport(attribute) && !(closed && is_bundle_only(attribute))
}

/// Whether the name of a group is BUNDLE.
pub(crate) fn is_bundle_name(typ: &Text) -> bool
    ensures { result ≡ is_bundle_name typ.now }
{
    typ.as_str() == "BUNDLE"
}

/// Whether it is a BUNDLE group.
#[tactic(auto, unfolding(crate::specs::Lines::is_bundle))]
fn is_bundle(attribute: &SessionAttribute) -> bool
    ensures { result ≡ is_bundle attribute.now }
{
    match attribute {
        SessionAttribute::Group { typ, .. } => is_bundle_name(typ),
        _ => false,
    }
}

/// How many groups of meaning BUNDLE there are.
pub(crate) fn count_bundles(attributes: &[SessionAttribute]) -> usize
    ensures { result ≡ count_by is_bundle attributes.now }
{
    let mut count = 0;
    for attribute in attributes {
        if is_bundle(attribute) {
            count += 1;
        }
    }
    count
}

/// The names of such a group.
#[tactic(auto, unfolding(crate::specs::Lines::bundle_in))]
fn bundle_in(attribute: &SessionAttribute) -> Option<&Listed<Mid>>
    ensures { option_copied result ≡ bundle_in attribute.now }
{
    match attribute {
        SessionAttribute::Group { typ, mids } => {
            if is_bundle_name(typ) {
                return Some(mids);
            }
            None
        }
        _ => None,
    }
}

/// The mids of the first BUNDLE group.
fn first_bundle(attributes: &[SessionAttribute]) -> Option<&Listed<Mid>>
    ensures { option_copied result ≡ first_of bundle_in attributes.now }
{
    for attribute in attributes {
        if let Some(mids) = bundle_in(attribute) {
            return Some(mids);
        }
    }
    None
}

/// The names of the first bundle; none if there is no bundle.
pub(crate) fn bundled(sdp: &Sdp) -> &[Mid]
    ensures { result.now ≡ bundled sdp.now }
{
    match first_bundle(sdp.session.attrs.as_slice()) {
        Some(mids) => mids.as_slice(),
        None => &[],
    }
}
