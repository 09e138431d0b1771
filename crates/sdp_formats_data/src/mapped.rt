//! Whether the payload types that a section lists are mapped (RFC 8866 6.6).

ghost use Rattle.std.specs.Prelude.{◌≡◌, count_by};
ghost use Rattle.sdp_formats_data.specs.Consistency.{are_mapped, is_mapped, is_static, maps_type};
ghost use Rattle.sdp_formats_data.specs.KnownTypes.{KnowsMapped};

use crate::media::MediaAttribute;
use rtp_wire::Pt;

/// Does it map this payload type?
fn maps_type(pt: Pt, attribute: &MediaAttribute) -> bool
    ensures { result ≡ maps_type pt attribute.now }
{
    match attribute {
        MediaAttribute::RtpMap { pt: mapped, .. } => *mapped == pt,
        _ => false,
    }
}

/// Has the payload type a meaning of its own (RFC 3551 6)?
fn is_static(pt: Pt) -> bool
    ensures { result ≡ is_static pt }
{
    let number = pt.get();
    number == 0 || number == 8 || number == 9 || number == 13
}

/// How many lines map this payload type.
fn count_maps(attributes: &[MediaAttribute], pt: Pt) -> usize
    ensures { result ≡ count_by (maps_type pt) attributes.now }
{
    attributes
        .iter()
        .filter(|attribute| maps_type(pt, *attribute))
        .count()
}

/// Is the payload type mapped once, or not at all if it has a meaning of its own?
fn is_mapped(attributes: &[MediaAttribute], pt: Pt) -> bool
    ensures { result ≡ is_mapped attributes.now pt }
{
    let count = count_maps(attributes, pt);
    count == 1 || (count == 0 && is_static(pt))
}

/// The same, but a type that is listed again costs nothing.
fn is_known_mapped(attributes: &[MediaAttribute], known: &mut [bool], pt: Pt) -> bool
    requires { KnowsMapped attributes.now known.old }
    ensures value { result ≡ is_mapped attributes.now pt }
    ensures known { KnowsMapped attributes.now known.new }
{
    let place = usize::from(pt.get());
    if known[place] {
        return true;
    }
    if !is_mapped(attributes, pt) {
        return false;
    }
    known[place] = true;
    true
}

/// Is each of the payload types mapped so?
pub(crate) fn are_mapped(attributes: &[MediaAttribute], pts: &[Pt]) -> bool
    ensures { result ≡ are_mapped attributes.now pts.now }
{
    let mut known = [false; 256];
    for pt in pts {
        if !is_known_mapped(attributes, &mut known, *pt) {
            return false;
        }
    }
    true
}
