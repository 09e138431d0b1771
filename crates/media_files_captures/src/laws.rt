//! What holds of all captures.

ghost use Rattle.std.specs.Prelude.{◌≡◌, ℕ, List, Some};
ghost use Rattle.media_files_captures.specs.Captures.{Packet};
ghost use Rattle.media_files_captures.specs.Fragments.{ArePieces, bytes_of, whole};
ghost use Rattle.media_files_captures.specs.HexLines.{Datagram, IsHexText};
ghost use Rattle.media_files_captures.specs.Pcap.{IsPcap};
ghost use Rattle.media_files_captures.specs.Pcapng.{IsPcapng};
ghost use Rattle.media_files_captures.specs.Rtpdump.{Datagram as Dumped, IsRtpdump};
ghost use Rattle.media_files_captures.specs.declared.fragments.IpFragment.{IpFragment};

/// A file holds exactly one list of packets or datagrams, and one rest after it: nothing is handed
/// out twice, left out or reordered. A packet that is whole is bytes of its fragments, each from where the one before
/// ends, up to the last.
pub fn capture_laws()
    ensures pcap { (file : List ℕ) (packets others : List Packet) (unread left : List ℕ) → IsPcap file packets unread
        → IsPcap file others left → (packets ≡ others) × (unread ≡ left) }
    ensures pcapng { (file : List ℕ) (packets others : List Packet) (unread left : List ℕ)
        → IsPcapng file packets unread → IsPcapng file others left → (packets ≡ others) × (unread ≡ left) }
    ensures rtpdump { (file : List ℕ) (datagrams others : List Dumped) (unread left : List ℕ)
        → IsRtpdump file datagrams unread → IsRtpdump file others left → (datagrams ≡ others) × (unread ≡ left) }
    ensures hex_lines { (text : List ℕ) (datagrams others : List Datagram) → IsHexText text datagrams
        → IsHexText text others → datagrams ≡ others }
    ensures fragments { (f : IpFragment) (held : List IpFragment) (bytes : List ℕ) → whole f held ≡ Some bytes
        → (pieces : List IpFragment) × ArePieces f 0 held pieces × (bytes ≡ bytes_of pieces) }
{}
