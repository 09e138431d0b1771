//! The codec law of AMR-WB payloads, and how their packets are laid out.

ghost use Rattle.payload_core_audio.specs.AmrWb.{amr_wb_coding};
ghost use Rattle.payload_core_audio.specs.AmrWbLayout.{PacketsAreLaidOut};
ghost use Rattle.payload_core_base.specs.Law.{CodecLaw};
ghost use Rattle.std.specs.Prelude.{Bool};

/// AMR-WB obeys the codec law in both layouts: the unit of a sample is its header byte, masked, and
/// its speech bits, zero-padded.
pub fn amr_wb_law()
    ensures { (octet_align : Bool) → CodecLaw (amr_wb_coding octet_align) }
{}

/// An AMR-WB packet gives exactly the frames of its layout, bandwidth-efficient or octet-aligned
/// (RFC 4867 4.3 and 4.4, without CRCs, interleaving and robust sorting). The mode request is
/// followed by a table of contents, with an entry for each frame whose F bit says whether another
/// entry follows, and then by the speech of each frame, in the order of the entries, with as many
/// bits as the entry's frame type has. All of it ends within the packet. Each frame gives its entry
/// as a byte and then its speech; a packet without such a layout is refused.
pub fn amr_wb_layout_law()
    ensures exactly { PacketsAreLaidOut }
{}
