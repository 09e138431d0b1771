//! Rows: a payload type with its codec and feedback.

ghost use Rattle.std.specs.Prelude.{◌≡◌, IfOk, None, Ok, Some, false, true};
ghost use Rattle.sdp_formats_rows.specs.Plain.{has_plain_others, is_plain};
ghost use Rattle.sdp_formats_rows.specs.Rows.{new_row};
ghost use Rattle.sdp_formats_rows.specs.Scores.{score};

use crate::plain::is_plain;
use crate::score::score;
use crate::spec::CodecSpec;
use rtp_wire::Pt;
use serde::{Deserialize, Serialize};
use std::alloc::{AllocError, Global};
use std::marker::Model;

// Which feedback a row uses.
#[derive(Clone, Copy, Debug, PartialEq, Eq, Drop, Serialize, Deserialize)]
struct Feedback {
    #[serde(rename = "fb_transport_cc")]
    transport_cc: bool,
    #[serde(rename = "fb_nack")]
    nack: bool,
    #[serde(rename = "fb_pli")]
    pli: bool,
    #[serde(rename = "fb_fir")]
    fir: bool,
    #[serde(rename = "fb_remb")]
    remb: bool,
}

/// A row: a payload type, the codec that it stands for, and the feedback that it uses.
///
/// Two rows are equal if all but their locks are. In JSON a row is one object, its feedback
/// `fb_transport_cc`, `fb_nack`, `fb_pli`, `fb_fir` and `fb_remb`; `resend` and `red` may be missing.
#[derive(Clone, Copy, Debug, Drop, Serialize, Deserialize)]
#[derive_where(PartialEq, Eq)]
pub struct PayloadParams {
    pt: Pt,
    resend: Option<Pt>,
    spec: CodecSpec,
    #[serde(flatten)]
    feedback: Feedback,
    red: Option<Pt>,
    #[derive_where(skip(EqHashOrd))]
    locked: bool,
}

impl Model for PayloadParams {
    ghost use Rattle.sdp_formats_rows.specs.Rows.{Row};

    ghost Value = { Row };

    ghost view = { λ r. record {
      pt = r.pt;
      resend = r.resend;
      spec = r.spec;
      transport_cc = r.feedback.transport_cc;
      nack = r.feedback.nack;
      pli = r.feedback.pli;
      fir = r.feedback.fir;
      remb = r.feedback.remb;
      red = r.red;
      locked = r.locked;
    } };

    ghost inverse = { λ r. record {
      pt = r.pt;
      resend = r.resend;
      spec = r.spec;
      feedback = record { transport_cc = r.transport_cc; nack = r.nack; pli = r.pli; fir = r.fir; remb = r.remb };
      red = r.red;
      locked = r.locked;
    } };
}

impl PayloadParams {
    /// The row of this type and codec, retransmitted under the type `resend` if one is given
    /// (RFC 4588).
    ///
    /// Transport-wide feedback is on; NACK, PLI, FIR and REMB are on for video and off for others.
    /// It has no RED type and isn't locked.
    pub fn new(pt: Pt, resend: Option<Pt>, spec: CodecSpec) -> Self
        ensures { result ≡ new_row pt resend spec }
    {
        let is_video = spec.codec.is_video();
        PayloadParams {
            pt,
            resend,
            spec,
            feedback: Feedback {
                transport_cc: true,
                nack: is_video,
                pli: is_video,
                fir: is_video,
                remb: is_video,
            },
            red: None,
            locked: false,
        }
    }

    /// The same row with this RED type (RFC 2198).
    pub fn with_red(self, pt: Pt) -> Self
        ensures { result ≡ record self { red = Some pt } }
    {
        PayloadParams {
            red: Some(pt),
            ..self
        }
    }

    /// The same row under these types: its payload type, that of its retransmissions and its RED type.
    pub fn with_types(self, pt: Pt, resend: Option<Pt>, red: Option<Pt>) -> Self
        ensures { result ≡ record self { pt = pt; resend = resend; red = red } }
    {
        PayloadParams {
            pt,
            resend,
            red,
            ..self
        }
    }

    /// The same row of a codec with other settings.
    pub fn with_spec(self, spec: CodecSpec) -> Self
        ensures { result ≡ record self { spec = spec } }
    {
        PayloadParams { spec, ..self }
    }

    /// How well the row matches another one, by codec, clock rate, channels and format: by 1 to 100 points, or not at
    /// all. Payload types, feedback and locks don't count, nor does the side.
    ///
    /// Telephone events match by 100 whatever their channels and range. AMR-WB needs mono and one layout at both
    /// sides (RFC 4867 8.3.1): it gets 100 if neither side gives a set of modes, and 99 if both give the same
    /// set or one side alone gives one. All other codecs need the same channels; they get 100 for the same format,
    /// and for formats that differ the points of their codec's table:
    ///
    /// - Opus loses points of 100 for each parameter that differs (RFC 7587 6.1);
    /// - H.264 needs one packetization mode and one profile, and loses the distance of the levels (RFC 6184 8.2.2);
    /// - H.265 and H.266 need one profile and one tier, and lose the distance of the levels; if a side gives no
    ///   level, one profile gets 90 (RFC 7798 7.1, RFC 9328 7.2);
    /// - VP9 gets 100 for one profile, AV1 for one profile, level and tier, each at its default if it isn't given;
    /// - others don't match.
    pub fn match_score(&self, other: &PayloadParams) -> Option<usize>
        ensures { result ≡ score self.now.spec other.now.spec }
    {
        score(&self.spec, &other.spec)
    }

    /// Whether a section can list the row so that it comes back as it is: audio, video or telephone events, under types
    /// of seven bits.
    ///
    /// G.722 is at 16,000 Hz without its one channel; video uses NACK, PLI, FIR and REMB, others none of them; only
    /// audio has a RED type; telephone events have a maximum and nothing else, others none; a profile, tier and level
    /// is under its own codec; and the format's text is read as the format.
    ///
    /// # Errors
    ///
    /// `AllocError` if memory for the format's text runs out, of a row alone that has all the rest.
    pub fn is_plain(&self, alloc: Global) -> Result<bool, AllocError>
        ensures answer { IfOk result (λ b. b ≡ is_plain self.now) }
        ensures never_memory { has_plain_others self.now ≡ false → result ≡ Ok false }
    {
        is_plain(alloc, self)
    }

    /// The payload type (RFC 3550 5.1).
    pub fn pt(&self) -> Pt
        ensures { result ≡ self.now.pt }
    {
        self.pt
    }

    /// The type of its retransmissions, if they have one (RFC 4588).
    pub fn resend(&self) -> Option<Pt>
        ensures { result ≡ self.now.resend }
    {
        self.resend
    }

    /// The codec with its settings.
    pub fn spec(&self) -> CodecSpec
        ensures { result ≡ self.now.spec }
    {
        self.spec
    }

    /// The RED type that wraps the codec, if there is one (RFC 2198).
    pub fn red(&self) -> Option<Pt>
        ensures { result ≡ self.now.red }
    {
        self.red
    }

    /// Whether transport-wide feedback is used.
    pub fn fb_transport_cc(&self) -> bool
        ensures { result ≡ self.now.transport_cc }
    {
        self.feedback.transport_cc
    }

    /// Sets whether transport-wide feedback is used; all else stays.
    pub fn set_fb_transport_cc(&mut self, fb_transport_cc: bool)
        ensures { self.new ≡ record self.old { transport_cc = fb_transport_cc } }
    {
        self.feedback.transport_cc = fb_transport_cc;
    }

    /// Whether lost packets are asked for by NACK (RFC 4585 6.2.1).
    pub fn fb_nack(&self) -> bool
        ensures { result ≡ self.now.nack }
    {
        self.feedback.nack
    }

    /// Sets whether lost packets are asked for by NACK; all else stays.
    pub fn set_fb_nack(&mut self, fb_nack: bool)
        ensures { self.new ≡ record self.old { nack = fb_nack } }
    {
        self.feedback.nack = fb_nack;
    }

    /// Whether picture loss is told by PLI (RFC 4585 6.3.1).
    pub fn fb_pli(&self) -> bool
        ensures { result ≡ self.now.pli }
    {
        self.feedback.pli
    }

    /// Sets whether picture loss is told by PLI; all else stays.
    pub fn set_fb_pli(&mut self, fb_pli: bool)
        ensures { self.new ≡ record self.old { pli = fb_pli } }
    {
        self.feedback.pli = fb_pli;
    }

    /// Whether a keyframe is asked for by FIR (RFC 5104 4.3.1).
    pub fn fb_fir(&self) -> bool
        ensures { result ≡ self.now.fir }
    {
        self.feedback.fir
    }

    /// Sets whether a keyframe is asked for by FIR; all else stays.
    pub fn set_fb_fir(&mut self, fb_fir: bool)
        ensures { self.new ≡ record self.old { fir = fb_fir } }
    {
        self.feedback.fir = fb_fir;
    }

    /// Whether the receiver's estimate of the bandwidth is told by REMB.
    pub fn fb_remb(&self) -> bool
        ensures { result ≡ self.now.remb }
    {
        self.feedback.remb
    }

    /// Sets whether the receiver's estimate of the bandwidth is told by REMB; all else stays.
    pub fn set_fb_remb(&mut self, fb_remb: bool)
        ensures { self.new ≡ record self.old { remb = fb_remb } }
    {
        self.feedback.remb = fb_remb;
    }

    /// Whether an exchange has locked the row.
    pub fn is_locked(&self) -> bool
        ensures { result ≡ self.now.locked }
    {
        self.locked
    }

    /// Locks the row; all else stays.
    pub fn lock(&mut self)
        ensures { self.new ≡ record self.old { locked = true } }
    {
        self.locked = true;
    }
}
