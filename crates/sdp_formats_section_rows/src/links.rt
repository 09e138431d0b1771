//! The type of retransmissions or of redundant audio of a payload type: the last of its role that names it.

ghost use Rattle.std.specs.Prelude.{◌≡◌};
ghost use Rattle.std.specs.List.{list_any};
ghost use Rattle.sdp_formats_section_rows.specs.Facts.{linked_by};
ghost use Rattle.sdp_formats_section_rows.specs.SectionRows.{names};

use crate::type_lists::is_listed;
use media_types::Codec;
use rtp_wire::Pt;
use sdp_formats_data::MediaAttribute;
use sdp_formats_values::FormatParam;

fn names(role: Codec, pt: Pt, param: &FormatParam) -> bool
    ensures { result ≡ names role pt param.now }
{
    match (role, param) {
        (Codec::Rtx, FormatParam::Apt(named)) => named.get() == pt.get(),
        (Codec::Red, FormatParam::BarePtList(named)) => named.get() == pt.get(),
        (Codec::Red, FormatParam::Red(named)) => named.get() == pt.get(),
        _ => false,
    }
}

fn any_names(role: Codec, pt: Pt, params: &[FormatParam]) -> bool
    ensures { result ≡ list_any (names role pt) params.now }
{
    params.iter().any(|param| names(role, pt, param))
}

// A parameter names one type, so that asking for names first leaves few questions to the list.
#[tactic(auto, unfolding(crate::specs::Facts::linked_by))]
pub(crate) fn linked_by(
    role: Codec,
    types: &[Pt],
    pt: Pt,
    found: Option<Pt>,
    attribute: &MediaAttribute,
) -> Option<Pt>
    ensures { result ≡ linked_by role types.now pt found attribute.now }
{
    match attribute {
        MediaAttribute::Fmtp { pt: by, values } => {
            if any_names(role, pt, values.as_slice()) && is_listed(types, *by) {
                return Some(*by);
            }
            found
        }
        _ => found,
    }
}
