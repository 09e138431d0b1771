//! Whether each payload type retransmits one other at most (RFC 4588 8.6).

ghost use Rattle.std.specs.Prelude.{◌≡◌};
ghost use Rattle.std.specs.List.{list_all, list_any};
ghost use Rattle.sdp_formats_data.specs.Consistency.{apt_differs, apts_agree, apts_agree_with};
ghost use Rattle.sdp_formats_data.specs.Consistency.{attribute_agrees, gives_apt, values_agree};
ghost use Rattle.sdp_formats_data.specs.KnownTypes.{KnowsApts};

use crate::media::MediaAttribute;
use rtp_wire::Pt;
use sdp_formats_values::FormatParam;

/// Does the parameter give another `apt` than this one?
fn apt_differs(apt: Pt, param: &FormatParam) -> bool
    ensures { result ≡ apt_differs apt param.now }
{
    match param {
        FormatParam::Apt(other) => *other != apt,
        _ => false,
    }
}

/// Does one of the parameters name another type than this one?
fn has_other_apt(values: &[FormatParam], apt: Pt) -> bool
    ensures { result ≡ list_any (apt_differs apt) values.now }
{
    values.iter().any(|param| apt_differs(apt, param))
}

/// Does the line give this payload type no other `apt`?
fn attribute_agrees(attribute: &MediaAttribute, pt: Pt, apt: Pt) -> bool
    ensures { result ≡ attribute_agrees pt apt attribute.now }
{
    match attribute {
        MediaAttribute::Fmtp { pt: other, values } => {
            *other != pt || !has_other_apt(values.as_slice(), apt)
        }
        _ => true,
    }
}

/// Does no `a=fmtp` line of the payload type name another type than this one?
fn apts_agree_with(attributes: &[MediaAttribute], pt: Pt, apt: Pt) -> bool
    ensures { result ≡ apts_agree_with attributes.now pt apt }
{
    attributes
        .iter()
        .all(|attribute| attribute_agrees(attribute, pt, apt))
}

/// The same, if a type that is named again costs nothing.
fn is_known_apt(attributes: &[MediaAttribute], known: &mut [Option<Pt>], pt: Pt, apt: Pt) -> bool
    requires { KnowsApts attributes.now known.old }
    ensures value { result ≡ apts_agree_with attributes.now pt apt }
    ensures known { KnowsApts attributes.now known.new }
{
    let place = usize::from(pt.get());
    if let Some(other) = known[place] {
        if other == apt {
            return true;
        }
    }
    if !apts_agree_with(attributes, pt, apt) {
        return false;
    }
    known[place] = Some(apt);
    true
}

/// Does no other line of the payload type name another type than this parameter?
fn values_agree(
    attributes: &[MediaAttribute],
    known: &mut [Option<Pt>],
    pt: Pt,
    param: &FormatParam,
) -> bool
    requires { KnowsApts attributes.now known.old }
    ensures value { result ≡ values_agree attributes.now pt param.now }
    ensures known { KnowsApts attributes.now known.new }
{
    match param {
        FormatParam::Apt(apt) => is_known_apt(attributes, known, pt, *apt),
        _ => true,
    }
}

/// Does no other line of the payload type name another type than one of these parameters?
fn all_agree(
    attributes: &[MediaAttribute],
    known: &mut [Option<Pt>],
    pt: Pt,
    values: &[FormatParam],
) -> bool
    requires { KnowsApts attributes.now known.old }
    ensures value { result ≡ list_all (values_agree attributes.now pt) values.now }
    ensures known { KnowsApts attributes.now known.new }
{
    for param in values {
        if !values_agree(attributes, known, pt, param) {
            return false;
        }
    }
    true
}

/// Do all other lines agree with what this one says is retransmitted?
fn gives_apt(
    attributes: &[MediaAttribute],
    known: &mut [Option<Pt>],
    attribute: &MediaAttribute,
) -> bool
    requires { KnowsApts attributes.now known.old }
    ensures value { result ≡ gives_apt attributes.now attribute.now }
    ensures known { KnowsApts attributes.now known.new }
{
    match attribute {
        MediaAttribute::Fmtp { pt, values } => all_agree(attributes, known, *pt, values.as_slice()),
        _ => true,
    }
}

/// Does every RTX payload type have at most one `apt`?
pub(crate) fn apts_agree(attributes: &[MediaAttribute]) -> bool
    ensures { result ≡ apts_agree attributes.now }
{
    let mut known = [None; 256];
    for attribute in attributes {
        if !gives_apt(attributes, &mut known, attribute) {
            return false;
        }
    }
    true
}
