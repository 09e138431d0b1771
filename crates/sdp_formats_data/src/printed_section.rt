//! Sections and their attributes as they are printed (RFC 8866 5.13, 5.14).

ghost use Rattle.std.specs.Prelude.{◌≡◌};
ghost use Rattle.sdp_formats_data.specs.PrintedMedia.{flag_text, name_before, port_of};

use crate::media::{MediaAttribute, MediaLine};
use crate::printed::{Params, RidTypes, Types};
use sdp_formats_grammar::{Joined, Maybe};
use sdp_formats_values::{RidRestrictions, Sources, write_both, write_value};
use std::fmt;
use std::fmt::Display;

/// Its line with its end; nothing for an `a=fmtp` without parameters, and for a simulcast that was made up or names no
/// layer.
impl fmt::Display for MediaAttribute {
    ghost use Rattle.std.specs.Prelude.{Some};
    ghost use Rattle.sdp_formats_data.specs.PrintedMedia.{attribute_text};

    ghost output = { λ a. Some (attribute_text a) };

    #[tactic(auto, unfolding(crate::specs::PrintedMedia::attribute_text))]
    fn fmt<W: fmt::Write>(&self, f: &mut fmt::Formatter<W>) -> fmt::Result {
        match self {
            MediaAttribute::Rtcp(value)
            | MediaAttribute::IceUfrag(value)
            | MediaAttribute::IcePwd(value)
            | MediaAttribute::IceOptions(value)
            | MediaAttribute::SctpInit(value)
            | MediaAttribute::Unused(value) => write_value(f, name_before(self), value),
            MediaAttribute::Fingerprint(value) => write_value(f, "a=fingerprint:", value),
            MediaAttribute::Setup(value) => write_value(f, "a=setup:", value),
            MediaAttribute::Mid(value) => write_value(f, "a=mid:", value),
            MediaAttribute::SctpPort(port) => write_value(f, "a=sctp-port:", port),
            MediaAttribute::MaxMessageSize(size) => write_value(f, "a=max-message-size:", size),
            MediaAttribute::Msid(value) => write_value(f, "a=msid:", value),
            MediaAttribute::Candidate(value) => write_value(f, "a=", value),
            MediaAttribute::RecvOnly
            | MediaAttribute::SendRecv
            | MediaAttribute::SendOnly
            | MediaAttribute::Inactive
            | MediaAttribute::RtcpMux
            | MediaAttribute::RtcpMuxOnly
            | MediaAttribute::RtcpRsize
            | MediaAttribute::EndOfCandidates => f.write_str(flag_line(self)),
            MediaAttribute::Simulcast(value) => value.fmt(f),
            MediaAttribute::Fmtp { .. }
            | MediaAttribute::Rid { .. }
            | MediaAttribute::SsrcGroup { .. } => ListedAttribute(self).fmt(f),
            _ => PartedAttribute(self).fmt(f),
        }
    }
}

/// As it is printed.
impl fmt::Debug for MediaAttribute {
    ghost use Rattle.std.specs.Prelude.{Some};
    ghost use Rattle.sdp_formats_data.specs.PrintedMedia.{attribute_text};

    ghost debug_output = { λ a. Some (attribute_text a) };

    fn fmt<W: fmt::Write>(&self, f: &mut fmt::Formatter<W>) -> fmt::Result {
        fmt::Display::fmt(self, f)
    }
}

/// What is before the text of an attribute that is one text; nothing for another.
fn name_before(attribute: &MediaAttribute) -> &'static str
    ensures { result.now ≡ name_before attribute.now }
{
    match attribute {
        MediaAttribute::Rtcp(_) => "a=rtcp:",
        MediaAttribute::IceUfrag(_) => "a=ice-ufrag:",
        MediaAttribute::IcePwd(_) => "a=ice-pwd:",
        MediaAttribute::IceOptions(_) => "a=ice-options:",
        MediaAttribute::SctpInit(_) => "a=sctp-init:",
        MediaAttribute::Unused(_) => "a=",
        _ => "",
    }
}

/// The line of an attribute that is a plain word, with its end; nothing for another.
fn flag_line(attribute: &MediaAttribute) -> &'static str
    ensures { result.now ≡ flag_text attribute.now }
{
    match attribute {
        MediaAttribute::RecvOnly => "a=recvonly\r\n",
        MediaAttribute::SendRecv => "a=sendrecv\r\n",
        MediaAttribute::SendOnly => "a=sendonly\r\n",
        MediaAttribute::Inactive => "a=inactive\r\n",
        MediaAttribute::RtcpMux => "a=rtcp-mux\r\n",
        MediaAttribute::RtcpMuxOnly => "a=rtcp-mux-only\r\n",
        MediaAttribute::RtcpRsize => "a=rtcp-rsize\r\n",
        MediaAttribute::EndOfCandidates => "a=end-of-candidates\r\n",
        _ => "",
    }
}

// An attribute of several parts; nothing for another.
#[derive(Drop)]
struct PartedAttribute<'a>(&'a MediaAttribute);

impl fmt::Display for PartedAttribute<'_> {
    ghost use Rattle.std.specs.Prelude.{Some};
    ghost use Rattle.sdp_formats_data.specs.PrintedMedia.{parted_text};

    ghost output = { λ a. Some (parted_text a.0.now) };

    fn fmt<W: fmt::Write>(&self, f: &mut fmt::Formatter<W>) -> fmt::Result {
        match self.0 {
            MediaAttribute::ExtMap { id, ext } => write_both(f, "a=extmap:", id, ext),
            MediaAttribute::RtpMap { pt, value } => write_both(f, "a=rtpmap:", pt, value),
            MediaAttribute::RtcpFb { pt, value } => write_both(f, "a=rtcp-fb:", pt, value),
            MediaAttribute::Ssrc { ssrc, attr, value } => {
                write!(f, "a=ssrc:{ssrc} {attr}:{value}\r\n")
            }
            _ => Ok(()),
        }
    }
}

// An attribute with a list; nothing for another.
#[derive(Drop)]
struct ListedAttribute<'a>(&'a MediaAttribute);

impl fmt::Display for ListedAttribute<'_> {
    ghost use Rattle.std.specs.Prelude.{Some};
    ghost use Rattle.sdp_formats_data.specs.PrintedMedia.{listed_text};

    ghost output = { λ a. Some (listed_text a.0.now) };

    #[tactic(auto, unfolding(crate::specs::PrintedMedia::listed_text))]
    fn fmt<W: fmt::Write>(&self, f: &mut fmt::Formatter<W>) -> fmt::Result {
        match self.0 {
            MediaAttribute::Fmtp { pt, values } => {
                if values.as_slice().is_empty() {
                    return Ok(());
                }
                let params = Params(values.as_slice());
                write_both(f, "a=fmtp:", pt, &params)
            }
            MediaAttribute::Rid {
                id,
                direction,
                pt,
                restriction,
            } => {
                let (name, direction) = (&id.0, direction.as_str());
                let types = RidTypes(pt.as_slice());
                let restrictions = RidRestrictions(
                    !pt.as_slice().is_empty(),
                    restriction.as_slice(),
                );
                write!(f, "a=rid:{name} {direction}{types}{restrictions}\r\n")
            }
            MediaAttribute::SsrcGroup { semantics, ssrcs } => {
                let sources = Sources(ssrcs.as_slice());
                write_both(f, "a=ssrc-group:", semantics, &sources)
            }
            _ => Ok(()),
        }
    }
}

// The formats of a section's line `m=`.
#[derive(Drop)]
struct Formats<'a>(&'a MediaLine);

impl fmt::Display for Formats<'_> {
    ghost use Rattle.std.specs.Prelude.{Some};
    ghost use Rattle.sdp_formats_data.specs.PrintedMedia.{formats_text};

    ghost output = { λ m. Some (formats_text m.0.now) };

    #[tactic(auto, unfolding(crate::specs::PrintedMedia::formats_text))]
    fn fmt<W: fmt::Write>(&self, f: &mut fmt::Formatter<W>) -> fmt::Result {
        if self.0.typ.is_channel() {
            return f.write_str("webrtc-datachannel");
        }
        if self.0.pts.as_slice().is_empty() {
            return f.write_str("0");
        }
        let types = Types(self.0.pts.as_slice(), " ");
        write!(f, "{types}")
    }
}

// Attributes one after the other.
#[derive(Drop)]
struct Attributes<'a>(&'a [MediaAttribute]);

impl fmt::Display for Attributes<'_> {
    ghost use Rattle.std.specs.Prelude.{Some};
    ghost use Rattle.sdp_formats_data.specs.PrintedMedia.{attributes_text};

    ghost output = { λ a. Some (attributes_text a.0.now) };

    fn fmt<W: fmt::Write>(&self, f: &mut fmt::Formatter<W>) -> fmt::Result {
        Joined(self.0, "").fmt(f)
    }
}

/// Its lines with their ends: port 9, or 0 if it is disabled, and the address 0.0.0.0 (RFC 8829 5.2.1).
impl fmt::Display for MediaLine {
    ghost use Rattle.std.specs.Prelude.{Some};
    ghost use Rattle.sdp_formats_data.specs.PrintedMedia.{section_text};

    ghost output = { λ m. Some (section_text m) };

    #[tactic(auto, unfolding(crate::specs::PrintedMedia::section_text))]
    fn fmt<W: fmt::Write>(&self, f: &mut fmt::Formatter<W>) -> fmt::Result {
        let (typ, port, proto) = (&self.typ, self.port(), self.proto);
        let formats = Formats(self);
        let bandwidth = Maybe("", &self.bw);
        let attributes = Attributes(self.attrs.as_slice());
        write!(
            f,
            "m={typ} {port} {proto} {formats}\r\nc=IN IP4 0.0.0.0\r\n{bandwidth}{attributes}"
        )
    }
}

impl MediaLine {
    /// The port of its line `m=`: 0 if it is disabled, else 9, the port of a section without candidates.
    pub fn port(&self) -> u16
        ensures { result ≡ port_of self.now }
    {
        if self.disabled { 0 } else { 9 }
    }
}
