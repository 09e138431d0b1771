//! What holds of every repair.

ghost use Rattle.std.specs.Prelude.{◌≡◌, ◌<◌, ◌^◌, ◌+◌, ◌++◌, ◌∷◌, ℕ, List, Some, length, option_and_then};
ghost use Rattle.std.specs.Int.{w16, to_be_bytes};
ghost use Rattle.rtp_wire.specs.Header.{header_in, payload_in};
ghost use Rattle.rtp_wire.specs.Layout.{IsBytes};
ghost use Rattle.rtp_wire.specs.Padding.{unpadded};
ghost use Rattle.rtp_wire.specs.Values.{Numbering};
ghost use Rattle.rtp_wire.specs.declared.header.RtpHeader.{RtpHeader};
ghost use Rattle.rtp_wire.specs.Repairs.{readdressed, repair_of, wrapped_in};

/// The retransmission of a datagram reads as the datagram's header with another payload type,
/// sequence number and SSRC, with any extension map. After it come the two bytes of the datagram's
/// number and the datagram's payload. Without its padding, that payload wraps the datagram's number
/// and its payload without padding, if that isn't empty. It is two bytes longer than the datagram.
pub fn repair_laws()
    ensures reads { (map : Numbering) (datagram : List ℕ) (header : RtpHeader) (pt number ssrc : ℕ) →
        IsBytes datagram → header_in map datagram ≡ Some header → pt < 128 → number < 2 ^ 16 → ssrc < 2 ^ 32 →
        header_in map (repair_of pt number ssrc header.header_len datagram)
        ≡ Some (readdressed pt number ssrc header) }
    ensures payload { (map : Numbering) (datagram : List ℕ) (header : RtpHeader) (pt number ssrc : ℕ) →
        IsBytes datagram → header_in map datagram ≡ Some header →
        payload_in header (repair_of pt number ssrc header.header_len datagram)
        ≡ to_be_bytes w16 header.sequence_number ++ payload_in header datagram }
    ensures wraps { (map : Numbering) (datagram : List ℕ) (header : RtpHeader) (pt number ssrc byte : ℕ)
        (body : List ℕ) → IsBytes datagram → header_in map datagram ≡ Some header →
        unpadded header.has_padding (payload_in header datagram) ≡ Some (byte ∷ body) →
        option_and_then wrapped_in (unpadded header.has_padding
        (payload_in header (repair_of pt number ssrc header.header_len datagram)))
        ≡ Some (record { number = header.sequence_number; payload = byte ∷ body }) }
    ensures len { (map : Numbering) (datagram : List ℕ) (header : RtpHeader) (pt number ssrc : ℕ) →
        IsBytes datagram → header_in map datagram ≡ Some header →
        length (repair_of pt number ssrc header.header_len datagram) ≡ length datagram + 2 }
{}
