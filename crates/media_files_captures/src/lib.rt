//! Captures read: plain functions over bytes, each format by its definition.
#![tactic(auto)]

mod captures;
mod first_bytes;
mod fragments;
mod frames;
mod hex_lines;
mod interfaces;
mod ip;
mod laws;
mod network;
mod numbers;
mod pcap;
mod pcapng;
mod rtpdump;
mod tunnels;
mod turn;

pub use captures::{Capture, CaptureError, CapturedPacket, Resolution};
pub use first_bytes::{DatagramKind, is_gzip, kind_of};
pub use fragments::{IpFragment, Reassembly, fragment_in, make_room, take_fragment};
pub use frames::{LinkType, PassedOver, UdpDatagram, udp_datagram_in, udp_datagram_of};
pub use hex_lines::{HexDatagram, HexError, read_hex_lines};
pub use interfaces::Interface;
pub use laws::capture_laws;
pub use numbers::{ByteOrder, push_u16, push_u32, push_u64, rest_from, u16_at, u16_be, u32_at};
pub use pcap::{PcapHeader, link_of, pcap_header, read_pcap, read_pcap_records};
pub use pcapng::{
    PcapngBlock, PcapngReader, PcapngSection, is_pcapng, read_pcapng, read_pcapng_blocks,
};
pub use rtpdump::{Rtpdump, RtpdumpDatagram, read_rtpdump, read_rtpdump_records, rtpdump_records};
pub use turn::relayed_in;
