//! Units and headers of H.264, H.265 and H.266.

use h26x_payload::{
    H265FragmentationUnitHeader, H265NALUHeader, H266FragmentationUnitHeader, H266NALUHeader,
    detect_h264_nalu, nal_units,
};
use words_and_replies::CommandLine;

/// `units TEXT`: the units of a text (ITU-T H.264 annex B), parted by blanks; a dash stands for none.
pub(crate) fn units(line: &mut CommandLine<'_>) {
    let text = line.bytes();
    for unit in nal_units(&text) {
        line.put_bytes(unit);
        line.put(" ");
    }
    let has_none = line.answer().is_empty();
    line.put_where(has_none, "-");
}

/// `shows TYPE PACKET`: whether an H.264 packet shows a unit of a type.
pub(crate) fn shows(line: &mut CommandLine<'_>) {
    let nalu_type = line.number::<u8>();
    let packet = line.bytes();
    line.put_whether(detect_h264_nalu(&packet, nalu_type))
}

/// `header CODEC BYTES`: what a header tells, of one byte that of a fragment, of two that of a unit or a packet.
pub(crate) fn header(line: &mut CommandLine<'_>) {
    let codec = line.word();
    let bytes = line.bytes();
    match codec {
        "H265" => header_h265(line, &bytes),
        "H266" => header_h266(line, &bytes),
        _ => line.refuse(format_args!("no header of {codec}")),
    }
}

/// An H.265 header; of a fragment S, E and the type, and the header of these three.
fn header_h265(line: &mut CommandLine<'_>, bytes: &[u8]) {
    match bytes {
        [byte] => {
            let header = H265FragmentationUnitHeader(*byte);
            let (s, e, fu_type) = (header.s(), header.e(), header.fu_type());
            let again = H265FragmentationUnitHeader::new(s, e, fu_type).0;
            line.put(format_args!("{s} {e} {fu_type} {again:02x}"))
        }
        [high, low] => {
            let word = u16::from(*high) * 256 + u16::from(*low);
            unit_h265(line, H265NALUHeader(word))
        }
        _ => line.refuse("no header of H265"),
    }
}

/// An H.265 unit's header: what it is of, F, the type, the layer and TID, and the header of these three.
fn unit_h265(line: &mut CommandLine<'_>, header: H265NALUHeader) {
    line.put(if header.is_aggregation_packet() {
        "aggregate "
    } else if header.is_fragmentation_unit() {
        "fragment "
    } else if header.is_paci_packet() {
        "PACI "
    } else if header.is_idr_picture() {
        "IDR "
    } else if header.is_irap() {
        "IRAP "
    } else if header.is_type_vcl_unit() {
        "VCL "
    } else {
        "other "
    });
    line.put_where(header.f(), "F ");
    let (nalu_type, layer, tid) = (header.nalu_type(), header.layer_id(), header.tid());
    let again = H265NALUHeader::new_with_type(nalu_type, layer, tid).0;
    line.put(format_args!("{nalu_type} {layer} {tid} {again:04x}"))
}

/// An H.266 header; of a fragment S, E, P and the type, and the header of these four.
fn header_h266(line: &mut CommandLine<'_>, bytes: &[u8]) {
    match bytes {
        [byte] => {
            let header = H266FragmentationUnitHeader(*byte);
            let (s, e, p, fu_type) = (header.s(), header.e(), header.p(), header.fu_type());
            let again = H266FragmentationUnitHeader::new(s, e, p, fu_type).0;
            line.put(format_args!("{s} {e} {p} {fu_type} {again:02x}"))
        }
        [high, low] => unit_h266(line, H266NALUHeader::new(*high, *low)),
        _ => line.refuse("no header of H266"),
    }
}

/// An H.266 unit's header: what it is of, F and Z, the type, the layer and TID, and the header of these three.
fn unit_h266(line: &mut CommandLine<'_>, header: H266NALUHeader) {
    line.put(if header.is_aggregation_packet() {
        "aggregate "
    } else if header.is_fragmentation_unit() {
        "fragment "
    } else if header.is_irap() {
        "IRAP "
    } else {
        "other "
    });
    line.put_where(header.f(), "F ");
    line.put_where(header.z(), "Z ");
    let (nalu_type, layer, tid) = (header.nalu_type(), header.layer_id(), header.tid());
    let again = H266NALUHeader::new_with_type(nalu_type, layer, tid).0;
    line.put(format_args!("{nalu_type} {layer} {tid} {again:04x}"))
}
