//! Media sections.

ghost use Rattle.std.specs.Prelude.{◌≡◌, [], None, false};
ghost use Rattle.sdp_formats_values.specs.declared.media_type.MediaType.TheVariants.{Audio};
ghost use Rattle.sdp_formats_values.specs.declared.media_type.Proto.TheVariants.{Srtp};

use media_types::Codec;
use rtp_wire::{Extension, Frequency, Mid, Pt, Ssrc};
use sdp_formats_grammar::{Listed, Maybe, Text};
use sdp_formats_values::{
    Bandwidth, Candidate, Fingerprint, FormatParam, MediaType, Msid, Pair, Proto, RestrictionId,
    RidDirection, Setup, Simulcast,
};
use std::alloc::Global;
use std::fmt;

/// A section: its line `m=` and what follows up to the next (RFC 8866 5.14).
#[derive(Debug, PartialEq, Eq)]
pub struct MediaLine {
    /// What it carries.
    pub typ: MediaType,
    /// Whether its port is 0: the section is refused or not in use.
    pub disabled: bool,
    /// How it is carried.
    pub proto: Proto,
    /// The payload types of its `m=` line; none if the list contains anything but numbers up to
    /// 255.
    pub pts: Listed<Pt>,
    /// The bandwidth, if given (RFC 8866 5.8).
    pub bw: Option<Bandwidth>,
    /// The attributes, in order (RFC 8866 5.13).
    pub attrs: Listed<MediaAttribute>,
}

/// Written by hand, so that crates that drop this type need no proof about its fields.
impl Drop for MediaLine {
    fn drop(self) {
        let MediaLine {
            typ: _typ,
            disabled: _disabled,
            proto: _proto,
            pts: _pts,
            bw: _bw,
            attrs: _attrs,
        } = self;
    }
}

impl MediaLine {
    /// A section of audio in use, over `UDP/TLS/RTP/SAVPF`, without payload types, bandwidth and attributes.
    pub fn empty(alloc: Global) -> MediaLine
        ensures { result ≡ record {
          typ = Audio;
          disabled = false;
          proto = Srtp;
          pts = [];
          bw = None;
          attrs = [];
        } }
    {
        MediaLine {
            typ: MediaType::Audio,
            disabled: false,
            proto: Proto::Srtp,
            pts: Listed::new(alloc),
            bw: None,
            attrs: Listed::new(alloc),
        }
    }
}

/// What `a=rtpmap` says of a payload type (RFC 8866 6.6).
#[derive(Clone, Copy, Debug, PartialEq, Eq, Drop)]
pub struct RtpMap {
    /// The codec.
    pub codec: Codec,
    /// The clock rate in ticks a second.
    pub clock_rate: Frequency,
    /// The number of audio channels, if it is given.
    pub channels: Option<u8>,
}

impl fmt::Display for RtpMap {
    ghost use Rattle.std.specs.Prelude.{Some};
    ghost use Rattle.sdp_formats_data.specs.PrintedMedia.{rtp_map_text};

    ghost output = { λ m. Some (rtp_map_text m) };

    fn fmt<W: fmt::Write>(&self, f: &mut fmt::Formatter<W>) -> fmt::Result {
        let (codec, clock_rate) = (self.codec, self.clock_rate);
        let channels = Maybe("/", &self.channels);
        write!(f, "{codec}/{clock_rate}{channels}")
    }
}

/// An attribute of a section (RFC 8866 5.13).
#[derive(PartialEq, Eq)]
pub enum MediaAttribute {
    /// `a=rtcp` (RFC 3605 2.1).
    Rtcp(Text),
    /// `a=ice-ufrag` (RFC 8839 5.4).
    IceUfrag(Text),
    /// `a=ice-pwd` (RFC 8839 5.4).
    IcePwd(Text),
    /// `a=ice-options` (RFC 8839 5.6).
    IceOptions(Text),
    /// `a=fingerprint` (RFC 8122 5).
    Fingerprint(Fingerprint),
    /// `a=setup` (RFC 4145 4).
    Setup(Setup),
    /// `a=mid` (RFC 5888 4).
    Mid(Mid),
    /// `a=sctp-port` (RFC 8841 5).
    SctpPort(u16),
    /// `a=max-message-size` in bytes, 0 without a limit (RFC 8841 6).
    MaxMessageSize(usize),
    /// `a=sctp-init`: the first chunk of the association in base 64, unchanged.
    SctpInit(Text),
    /// `a=extmap` (RFC 8285 8).
    ExtMap {
        /// The number in packets.
        id: u8,
        /// The extension.
        ext: Extension,
    },
    /// `a=recvonly` (RFC 8866 6.7).
    RecvOnly,
    /// `a=sendrecv` (RFC 8866 6.7).
    SendRecv,
    /// `a=sendonly` (RFC 8866 6.7).
    SendOnly,
    /// `a=inactive` (RFC 8866 6.7).
    Inactive,
    /// `a=msid` (RFC 8830 2).
    Msid(Msid),
    /// `a=rtcp-mux` (RFC 5761 5.1.1).
    RtcpMux,
    /// `a=rtcp-mux-only` (RFC 8858 3).
    RtcpMuxOnly,
    /// `a=rtcp-rsize` (RFC 5506 5).
    RtcpRsize,
    /// `a=candidate` (RFC 8839 5.1).
    Candidate(Candidate),
    /// `a=end-of-candidates` (RFC 8840 8.2).
    EndOfCandidates,
    /// `a=rtpmap` (RFC 8866 6.6).
    RtpMap {
        /// The payload type, up to 127 if it was read.
        pt: Pt,
        /// What it stands for.
        value: RtpMap,
    },
    /// `a=rtcp-fb` (RFC 4585 4.2).
    RtcpFb {
        /// The payload type, up to 127 if it was read.
        pt: Pt,
        /// The feedback, as `nack pli`.
        value: Text,
    },
    /// `a=fmtp` (RFC 8866 6.15).
    Fmtp {
        /// The payload type, up to 127 if it was read.
        pt: Pt,
        /// The parameters.
        values: Listed<FormatParam>,
    },
    /// `a=rid` (RFC 8851 4).
    Rid {
        /// The name of the stream.
        id: RestrictionId,
        /// Which way it goes.
        direction: RidDirection,
        /// The payload types that it may have; none given is any.
        pt: Listed<Pt>,
        /// The restrictions, as `max-br=64000`.
        restriction: Listed<Pair>,
    },
    /// `a=simulcast` (RFC 8853 5.1).
    Simulcast(Simulcast),
    /// `a=ssrc-group` (RFC 5576 4.2).
    SsrcGroup {
        /// What the group means, as `FID`.
        semantics: Text,
        /// The sources.
        ssrcs: Listed<Ssrc>,
    },
    /// `a=ssrc` (RFC 5576 4.1).
    Ssrc {
        /// The source.
        ssrc: Ssrc,
        /// The attribute, as `cname`.
        attr: Text,
        /// Its value.
        value: Text,
    },
    /// Any other attribute: what follows `a=`.
    Unused(Text),
}

/// Written by hand, so that crates that drop this type need no proof about its fields.
impl Drop for MediaAttribute {
    fn drop(self) {
        match self {
            Self::Rtcp(_text) | Self::IceUfrag(_text) | Self::IcePwd(_text) => {}
            Self::IceOptions(_text) | Self::SctpInit(_text) | Self::Unused(_text) => {}
            Self::Fingerprint(_fingerprint) => {}
            Self::ExtMap { id: _, ext: _ext } => {}
            Self::Msid(_msid) => {}
            Self::Candidate(_candidate) => {}
            Self::RtcpFb { pt: _, value: _fb } => {}
            Self::Fmtp {
                pt: _,
                values: _values,
            } => {}
            Self::Rid {
                id: _id,
                direction: _,
                pt: _types,
                restriction: _restriction,
            } => {}
            Self::Simulcast(_simulcast) => {}
            Self::SsrcGroup {
                semantics: _semantics,
                ssrcs: _ssrcs,
            } => {}
            Self::Ssrc {
                ssrc: _,
                attr: _attr,
                value: _value,
            } => {}
            Self::RecvOnly | Self::SendRecv | Self::SendOnly | Self::Inactive => {}
            Self::RtcpMux | Self::RtcpMuxOnly | Self::RtcpRsize | Self::EndOfCandidates => {}
            Self::Setup(_) | Self::Mid(_) | Self::SctpPort(_) | Self::MaxMessageSize(_) => {}
            Self::RtpMap { pt: _, value: _ } => {}
        }
    }
}
