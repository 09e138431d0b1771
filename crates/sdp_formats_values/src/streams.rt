//! Streams of a section: names of restrictions, layers, sources.

ghost use Rattle.std.specs.Prelude.{◌≡◌, true, [], IfOk};
ghost use Rattle.std.specs.String.{string_bytes};
ghost use Rattle.sdp_formats_values.specs.PrintedValues.{way_text, name_text};
ghost use Rattle.sdp_formats_values.specs.Streams.{inverted};

use crate::pairs::Pair;
use rtp_wire::Ssrc;
use sdp_formats_grammar::{Joined, Listed, Text};
use std::alloc::{AllocError, Global};
use std::fmt;
use std::ops::DerefSlice;

/// The name of an `a=rid` line (RFC 8851 4), and whether its stream is initially active (not
/// paused).
#[derive(Debug, PartialEq, Eq)]
pub struct RestrictionId(pub Text, pub bool);

/// Written by hand, so that crates that drop this type need no proof about its fields.
impl Drop for RestrictionId {
    fn drop(self) {
        let RestrictionId(_first, _second) = self;
    }
}

impl RestrictionId {
    /// The name, active or not.
    pub fn new(rid: Text, active: bool) -> RestrictionId
        ensures { result ≡ record { 0 = rid; 1 = active } }
    {
        RestrictionId(rid, active)
    }

    /// The name of an active stream.
    pub fn new_active(rid: Text) -> RestrictionId
        ensures { result ≡ record { 0 = rid; 1 = true } }
    {
        RestrictionId(rid, true)
    }

    /// The empty name, of an active stream.
    pub fn default(alloc: Global) -> RestrictionId
        ensures { result ≡ record { 0 = []; 1 = true } }
    {
        RestrictionId(Text::of(String::new(alloc)), true)
    }

    /// It as it is in an `a=simulcast` line: after a tilde if it isn't active at first (RFC 8853 5.1).
    ///
    /// # Errors
    ///
    /// `AllocError` if memory runs out.
    pub fn to_sdp(&self, alloc: Global) -> Result<String, AllocError>
        ensures { IfOk result (λ text. string_bytes text ≡ name_text self.now) }
    {
        self.to_string(alloc)
    }
}

impl fmt::Display for RestrictionId {
    ghost use Rattle.std.specs.Prelude.{Some};

    ghost output = { λ id. Some (name_text id) };

    fn fmt<W: fmt::Write>(&self, f: &mut fmt::Formatter<W>) -> fmt::Result {
        let name = &self.0;
        if self.1 {
            return write!(f, "{name}");
        }
        write!(f, "~{name}")
    }
}

/// Which way the stream of an `a=rid` line goes (RFC 8851 4).
#[derive(Clone, Copy, Debug, PartialEq, Eq, Drop)]
pub enum RidDirection {
    /// `send`
    Send,
    /// `recv`
    Recv,
}

impl RidDirection {
    /// The word for it in a session text.
    pub fn as_str(&self) -> &'static str
        ensures { result.now ≡ way_text self.now }
    {
        match self {
            RidDirection::Send => "send",
            RidDirection::Recv => "recv",
        }
    }
}

/// A layer of a simulcast (RFC 8853 5.1).
#[derive(Debug, PartialEq, Eq)]
pub struct SimulcastLayer {
    /// The name of its `a=rid` line.
    pub restriction_id: RestrictionId,
    /// Its restrictions, if they are given with it.
    pub attributes: Option<Listed<Pair>>,
}

/// Written by hand, so that crates that drop this type need no proof about its fields.
impl Drop for SimulcastLayer {
    fn drop(self) {
        let SimulcastLayer {
            restriction_id: _restriction_id,
            attributes: _attributes,
        } = self;
    }
}

/// The name of its `a=rid` line.
impl fmt::Display for SimulcastLayer {
    ghost use Rattle.std.specs.Prelude.{Some};
    ghost use Rattle.sdp_formats_values.specs.PrintedValues.{layer_text};

    ghost output = { λ l. Some (layer_text l) };

    fn fmt<W: fmt::Write>(&self, f: &mut fmt::Formatter<W>) -> fmt::Result {
        let name = &self.restriction_id;
        write!(f, "{name}")
    }
}

/// The layers of one way of a simulcast, in the order of preference; of alternatives the first (RFC 8853 5.1).
#[derive(Debug, PartialEq, Eq, Drop)]
pub struct SimulcastGroups(pub Listed<SimulcastLayer>);

/// Its layers, as a slice.
impl DerefSlice for SimulcastGroups {
    type Elem = SimulcastLayer;

    ghost deref_gives = { λ groups layers. layers ≡ groups.0 };

    fn deref(&self) -> &[SimulcastLayer] {
        self.0.as_slice()
    }
}

/// The names of the layers with semicolons between.
impl fmt::Display for SimulcastGroups {
    ghost use Rattle.std.specs.Prelude.{Some};
    ghost use Rattle.sdp_formats_values.specs.PrintedValues.{layers_text};

    ghost output = { λ g. Some (layers_text g) };

    fn fmt<W: fmt::Write>(&self, f: &mut fmt::Formatter<W>) -> fmt::Result {
        let layers = Joined(self.0.as_slice(), ";");
        write!(f, "{layers}")
    }
}

/// An `a=simulcast` line (RFC 8853 5.1).
#[derive(Debug, PartialEq, Eq, Drop)]
pub struct Simulcast {
    /// The layers that are sent.
    pub send: SimulcastGroups,
    /// The layers that are received.
    pub recv: SimulcastGroups,
    /// Whether it was made up for a text without such a line; it isn't printed then.
    pub is_munged: bool,
}

impl Simulcast {
    /// The role as the other end sees it.
    pub fn invert(self) -> Simulcast
        ensures value { result ≡ inverted self }
        ensures twice { inverted result ≡ self }
    {
        Simulcast {
            send: self.recv,
            recv: self.send,
            is_munged: self.is_munged,
        }
    }
}

/// The whole line with its end; nothing if it was made up or names no layer.
impl fmt::Display for Simulcast {
    ghost use Rattle.std.specs.Prelude.{Some};
    ghost use Rattle.sdp_formats_values.specs.PrintedValues.{simulcast_text};

    ghost output = { λ s. Some (simulcast_text s) };

    #[tactic(auto, unfolding(crate::specs::PrintedValues::simulcast_text))]
    fn fmt<W: fmt::Write>(&self, f: &mut fmt::Formatter<W>) -> fmt::Result {
        if self.is_munged {
            return Ok(());
        }
        let (send, recv) = (&self.send, &self.recv);
        match (send.0.as_slice().is_empty(), recv.0.as_slice().is_empty()) {
            (true, true) => Ok(()),
            (false, true) => write!(f, "a=simulcast:send {send}\r\n"),
            (true, false) => write!(f, "a=simulcast:recv {recv}\r\n"),
            (false, false) => write!(f, "a=simulcast:send {send} recv {recv}\r\n"),
        }
    }
}

/// The names of a media stream and its track (RFC 8830 2).
#[derive(Debug, PartialEq, Eq, Drop)]
pub struct Msid {
    /// The stream; `-` is none.
    pub stream_id: Text,
    /// The track.
    pub track_id: Text,
}

impl fmt::Display for Msid {
    ghost use Rattle.std.specs.Prelude.{Some};
    ghost use Rattle.sdp_formats_values.specs.PrintedValues.{msid_text};

    ghost output = { λ m. Some (msid_text m) };

    fn fmt<W: fmt::Write>(&self, f: &mut fmt::Formatter<W>) -> fmt::Result {
        let (stream, track) = (&self.stream_id, &self.track_id);
        write!(f, "{stream} {track}")
    }
}

/// What a section says of one source (RFC 5576).
#[derive(Debug, PartialEq, Eq, Drop)]
pub struct SsrcInfo {
    /// The source.
    pub ssrc: Ssrc,
    /// The source whose packets it sends again (RFC 4588 8.3).
    pub repairs: Option<Ssrc>,
    /// The name of its end (RFC 3550 6.5.1).
    pub cname: Option<Text>,
    /// The media stream that it belongs to (RFC 8830).
    pub stream_id: Option<Text>,
    /// Its track in that stream.
    pub track_id: Option<Text>,
}

/// Nothing said of source 0.
impl Default for SsrcInfo {
    ghost use Rattle.std.specs.Prelude.{None};

    ghost is_default = { λ info. info ≡ record {
      ssrc = 0;
      repairs = None;
      cname = None;
      stream_id = None;
      track_id = None;
    } };

    fn default() -> SsrcInfo {
        SsrcInfo {
            ssrc: Ssrc::from(0),
            repairs: None,
            cname: None,
            stream_id: None,
            track_id: None,
        }
    }
}
