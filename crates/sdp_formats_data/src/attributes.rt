//! Copies of attributes.

ghost use Rattle.std.specs.Prelude.{◌≡◌, IfOk, IsTrue};
ghost use Rattle.sdp_formats_data.specs.Compound.{is_compound, is_source};
ghost use Rattle.sdp_formats_data.specs.Copies.{with_session_text, with_text};

use crate::media::MediaAttribute;
use crate::session::SessionAttribute;
use sdp_formats_grammar::{Listed, Text};
use sdp_formats_values::Pair;
use std::alloc::{AllocError, Global};

/// An attribute of the same kind with this text; `Unused` if the kind has none.
fn with_session_text(attribute: &SessionAttribute, text: Text) -> SessionAttribute
    ensures { result ≡ with_session_text attribute.now text }
{
    match attribute {
        SessionAttribute::IceUfrag(_) => SessionAttribute::IceUfrag(text),
        SessionAttribute::IcePwd(_) => SessionAttribute::IcePwd(text),
        SessionAttribute::IceOptions(_) => SessionAttribute::IceOptions(text),
        _ => SessionAttribute::Unused(text),
    }
}

impl SessionAttribute {
    /// The same value again.
    ///
    /// # Errors
    ///
    /// `AllocError` if memory runs out.
    pub fn clone(&self, alloc: Global) -> Result<SessionAttribute, AllocError>
        ensures { IfOk result (λ copy. copy ≡ self.now) }
    {
        Ok(match self {
            SessionAttribute::Group { typ, mids } => SessionAttribute::Group {
                typ: typ.clone(alloc)?,
                mids: mids.copied(alloc)?,
            },
            SessionAttribute::MsidSemantic {
                semantic,
                stream_ids,
            } => SessionAttribute::MsidSemantic {
                semantic: semantic.clone(alloc)?,
                stream_ids: Text::clone_all(alloc, stream_ids.as_slice())?,
            },
            SessionAttribute::AllowMixedExts => SessionAttribute::AllowMixedExts,
            SessionAttribute::IceLite => SessionAttribute::IceLite,
            SessionAttribute::IceUfrag(a)
            | SessionAttribute::IcePwd(a)
            | SessionAttribute::IceOptions(a)
            | SessionAttribute::Unused(a) => with_session_text(self, a.clone(alloc)?),
            SessionAttribute::Fingerprint(a) => SessionAttribute::Fingerprint(a.clone(alloc)?),
            SessionAttribute::Setup(a) => SessionAttribute::Setup(*a),
            SessionAttribute::Candidate(a) => SessionAttribute::Candidate(a.clone(alloc)?),
            SessionAttribute::EndOfCandidates => SessionAttribute::EndOfCandidates,
        })
    }

    /// The same values again.
    ///
    /// # Errors
    ///
    /// `AllocError` if memory runs out.
    pub fn clone_all(
        alloc: Global,
        attributes: &[SessionAttribute],
    ) -> Result<Listed<SessionAttribute>, AllocError>
        ensures { IfOk result (λ copies. copies ≡ attributes.now) }
    {
        let mut copies = Vec::new(alloc);
        for attribute in attributes {
            copies.push(attribute.clone(alloc)?)?;
        }
        Ok(Listed::of(copies))
    }
}

/// A copy of an attribute of a kind that is about sources; of another kind `Inactive`.
#[tactic(auto, unfolding(crate::specs::Compound::is_source))]
fn source(alloc: Global, attribute: &MediaAttribute) -> Result<MediaAttribute, AllocError>
    requires { IsTrue (is_source attribute.now) }
    ensures { IfOk result (λ copy. copy ≡ attribute.now) }
{
    Ok(match attribute {
        MediaAttribute::SsrcGroup { semantics, ssrcs } => MediaAttribute::SsrcGroup {
            semantics: semantics.clone(alloc)?,
            ssrcs: ssrcs.copied(alloc)?,
        },
        MediaAttribute::Ssrc { ssrc, attr, value } => MediaAttribute::Ssrc {
            ssrc: *ssrc,
            attr: attr.clone(alloc)?,
            value: value.clone(alloc)?,
        },
        _ => MediaAttribute::Inactive,
    })
}

/// A copy of an attribute of a kind that holds several values; of another kind `Inactive`.
#[tactic(auto, unfolding(crate::specs::Compound::is_compound))]
fn compound(alloc: Global, attribute: &MediaAttribute) -> Result<MediaAttribute, AllocError>
    requires { IsTrue (is_compound attribute.now) }
    ensures { IfOk result (λ copy. copy ≡ attribute.now) }
{
    Ok(match attribute {
        MediaAttribute::ExtMap { id, ext } => MediaAttribute::ExtMap {
            id: *id,
            ext: ext.clone(alloc)?,
        },
        MediaAttribute::RtpMap { pt, value } => MediaAttribute::RtpMap {
            pt: *pt,
            value: *value,
        },
        MediaAttribute::RtcpFb { pt, value } => MediaAttribute::RtcpFb {
            pt: *pt,
            value: value.clone(alloc)?,
        },
        MediaAttribute::Fmtp { pt, values } => MediaAttribute::Fmtp {
            pt: *pt,
            values: values.copied(alloc)?,
        },
        MediaAttribute::Rid {
            id,
            direction,
            pt,
            restriction,
        } => MediaAttribute::Rid {
            id: id.clone(alloc)?,
            direction: *direction,
            pt: pt.copied(alloc)?,
            restriction: Pair::clone_all(alloc, restriction.as_slice())?,
        },
        _ => return source(alloc, attribute),
    })
}

/// An attribute of the same kind with this text; `Unused` if the kind has none.
fn with_text(attribute: &MediaAttribute, text: Text) -> MediaAttribute
    ensures { result ≡ with_text attribute.now text }
{
    match attribute {
        MediaAttribute::Rtcp(_) => MediaAttribute::Rtcp(text),
        MediaAttribute::IceUfrag(_) => MediaAttribute::IceUfrag(text),
        MediaAttribute::IcePwd(_) => MediaAttribute::IcePwd(text),
        MediaAttribute::IceOptions(_) => MediaAttribute::IceOptions(text),
        MediaAttribute::SctpInit(_) => MediaAttribute::SctpInit(text),
        _ => MediaAttribute::Unused(text),
    }
}

impl MediaAttribute {
    /// The same value again.
    ///
    /// # Errors
    ///
    /// `AllocError` if memory runs out.
    #[tactic(auto, unfolding(crate::specs::Compound::is_compound))]
    pub fn clone(&self, alloc: Global) -> Result<MediaAttribute, AllocError>
        ensures { IfOk result (λ copy. copy ≡ self.now) }
    {
        Ok(match self {
            MediaAttribute::Rtcp(a)
            | MediaAttribute::IceUfrag(a)
            | MediaAttribute::IcePwd(a)
            | MediaAttribute::IceOptions(a)
            | MediaAttribute::SctpInit(a)
            | MediaAttribute::Unused(a) => with_text(self, a.clone(alloc)?),
            MediaAttribute::Fingerprint(a) => MediaAttribute::Fingerprint(a.clone(alloc)?),
            MediaAttribute::Setup(a) => MediaAttribute::Setup(*a),
            MediaAttribute::Mid(a) => MediaAttribute::Mid(*a),
            MediaAttribute::SctpPort(a) => MediaAttribute::SctpPort(*a),
            MediaAttribute::MaxMessageSize(a) => MediaAttribute::MaxMessageSize(*a),
            MediaAttribute::RecvOnly => MediaAttribute::RecvOnly,
            MediaAttribute::SendRecv => MediaAttribute::SendRecv,
            MediaAttribute::SendOnly => MediaAttribute::SendOnly,
            MediaAttribute::Inactive => MediaAttribute::Inactive,
            MediaAttribute::Msid(a) => MediaAttribute::Msid(a.clone(alloc)?),
            MediaAttribute::RtcpMux => MediaAttribute::RtcpMux,
            MediaAttribute::RtcpMuxOnly => MediaAttribute::RtcpMuxOnly,
            MediaAttribute::RtcpRsize => MediaAttribute::RtcpRsize,
            MediaAttribute::Candidate(a) => MediaAttribute::Candidate(a.clone(alloc)?),
            MediaAttribute::EndOfCandidates => MediaAttribute::EndOfCandidates,
            MediaAttribute::Simulcast(a) => MediaAttribute::Simulcast(a.clone(alloc)?),
            _ => return compound(alloc, self),
        })
    }

    /// The same values again.
    ///
    /// # Errors
    ///
    /// `AllocError` if memory runs out.
    pub fn clone_all(
        alloc: Global,
        attributes: &[MediaAttribute],
    ) -> Result<Listed<MediaAttribute>, AllocError>
        ensures { IfOk result (λ copies. copies ≡ attributes.now) }
    {
        let mut copies = Vec::new(alloc);
        for attribute in attributes {
            copies.push(attribute.clone(alloc)?)?;
        }
        Ok(Listed::of(copies))
    }
}
