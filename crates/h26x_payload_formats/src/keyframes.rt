//! Packets that show random access pictures (RFC 7798 4.4, RFC 9328 4.3).

ghost use Rattle.h26x_payload_formats.specs.Reading.{aggregated_in, is_irap_unit, shows_irap, starts_irap};
ghost use Rattle.h26x_payload_units.specs.Aggregates.{aggregated};
ghost use Rattle.std.specs.List.{list_any};
ghost use Rattle.std.specs.Prelude.{◌≡◌, false};

use h26x_payload_units::{Layout, PacketKind, donl_size, first_aggregated, has_start};

/// Whether a unit is of a random access picture.
fn is_irap_unit(layout: Layout, unit: &[u8]) -> bool
    ensures { result ≡ is_irap_unit layout unit.now }
{
    layout.is_irap(layout.unit_type(unit))
}

/// Whether units in an aggregate, with this many bytes before the sizes, are of a random access picture.
fn has_irap(layout: Layout, lead: usize, later: usize, body: &[u8]) -> bool
    ensures { result ≡ list_any (is_irap_unit layout) (aggregated lead later body.now).units }
{
    let mut lead = lead;
    let mut rest = body;
    while !rest.is_empty() {
        let Ok((unit, behind)) = first_aggregated(lead, rest) else {
            return false;
        };
        if is_irap_unit(layout, unit) {
            return true;
        }
        lead = later;
        rest = behind;
    }
    false
}

/// Whether a fragment, after its header, starts a unit of a random access picture.
fn starts_irap(layout: Layout, body: &[u8]) -> bool
    ensures { result ≡ starts_irap layout body.now }
{
    match body.first() {
        Some(fu) => has_start(*fu) && layout.is_irap(layout.fu_type(*fu)),
        None => false,
    }
}

/// Whether a packet shows a random access picture, with decoding order numbers or without.
pub fn shows_irap(layout: Layout, donl: bool, packet: &[u8]) -> bool
    ensures { result ≡ shows_irap layout donl packet.now }
{
    let Some((high, rest)) = packet.split_first() else {
        return false;
    };
    let Some((low, body)) = rest.split_first() else {
        return false;
    };
    match layout.kind_of(*high, *low) {
        PacketKind::Single => layout.is_irap(layout.type_of(*high, *low)),
        PacketKind::Aggregate => has_irap(layout, donl_size(donl), layout.dond_size(donl), body),
        PacketKind::Fragment => starts_irap(layout, body),
        PacketKind::Unhandled => false,
    }
}

/// Whether an H.265 packet without decoding order numbers shows an IRAP picture, types 16 to 23
/// (ITU-T H.265 table 7-1): it is a NAL unit of one, aggregates one before any fault, or is the
/// first fragment of one. A packet without a complete two-byte header shows none.
pub fn detect_h265_keyframe(packet: &[u8]) -> bool
    ensures { result ≡ shows_irap Layout.H265 false packet.now }
{
    shows_irap(Layout::H265, false, packet)
}

/// Whether an H.266 packet without decoding order numbers shows an IRAP picture, types 7 to 9
/// (ITU-T H.266 table 5): it is a NAL unit of one, aggregates one before any fault, or is the first
/// fragment of one. A packet without a complete two-byte header shows none.
pub fn detect_h266_keyframe(packet: &[u8]) -> bool
    ensures { result ≡ shows_irap Layout.H266 false packet.now }
{
    shows_irap(Layout::H266, false, packet)
}
