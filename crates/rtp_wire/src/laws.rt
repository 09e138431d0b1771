//! What holds of every header and of padding.

ghost use Rattle.std.specs.Prelude.{◌≡◌, ◌++◌, Some, true, false, length, ℕ, ◌%◌, ◌≤◌, List};
ghost use Rattle.rtp_wire.specs.Values.{Numbering};
ghost use Rattle.rtp_wire.specs.declared.header.RtpHeader.{RtpHeader};
ghost use Rattle.rtp_wire.specs.Header.{header_in, header_of, spelled, two_byte_length, image, payload_in, IsSpelled};
ghost use Rattle.rtp_wire.specs.Header.{IsWritable};
ghost use Rattle.rtp_wire.specs.Padding.{unpadded, IsPadded};
ghost use Rattle.rtp_wire.specs.Layout.{Layout, layout_bytes, IsBytes, IsLayout};

/// What a header is on the wire. If a header can be read, the bytes begin with a spelling of it;
/// and a spelling is read as its header whatever follows it, so bytes from which none can be read
/// begin with no spelling. What was written reads back as its wire image, is a whole number of
/// words, and is no longer than in the two-byte form.
pub fn header_laws()
    ensures found { (map : Numbering) (bytes : List ℕ) (header : RtpHeader) → IsBytes bytes →
        header_in map bytes ≡ Some header → IsSpelled map bytes header }
    ensures only { (map : Numbering) (layout : Layout) (rest : List ℕ) → IsLayout layout →
        header_in map (layout_bytes layout ++ rest) ≡ Some (header_of map layout) }
    ensures wire_image { (map : Numbering) (header : RtpHeader) (rest : List ℕ) → IsWritable header →
        header_in map (spelled map header ++ rest) ≡ Some (image map header) }
    ensures payload { (map : Numbering) (header : RtpHeader) (payload : List ℕ) →
        payload_in (image map header) (spelled map header ++ payload) ≡ payload }
    ensures whole_words { (map : Numbering) (header : RtpHeader) → length (spelled map header) % 4 ≡ 0 }
    ensures least { (map : Numbering) (header : RtpHeader) → header.csrc_count ≡ 0 →
        header.has_extension ≡ false → length (spelled map header) ≡ 12 }
    ensures within { (map : Numbering) (header : RtpHeader) → length (spelled map header) ≤ two_byte_length map header }
{}

/// Padding is removed if and only if the payload is some bytes (maybe none) followed by padding: at
/// least one byte, the last one being their count (RFC 3550 5.1).
pub fn padding_laws()
    ensures taken_off { (payload body : List ℕ) → IsPadded payload body → unpadded true payload ≡ Some body }
    ensures was_padded { (payload body : List ℕ) → unpadded true payload ≡ Some body → IsPadded payload body }
{}
