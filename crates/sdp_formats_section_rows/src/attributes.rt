//! The attributes that list a row.

ghost use Rattle.std.specs.Prelude.{◌≡◌, ◌++◌, IfOk, OnOk};
ghost use Rattle.sdp_formats_section_rows.specs.Attributes.{attributes_of, fmtp_of, link_lines, red_lines};
ghost use Rattle.sdp_formats_section_rows.specs.Attributes.{resend_lines};

use crate::feedback::push_feedback;
use crate::maps::ToRtpMap;
use crate::params::params_in;
use media_types::Codec;
use rtp_wire::Pt;
use sdp_formats_data::{MediaAttribute, RtpMap};
use sdp_formats_grammar::Listed;
use sdp_formats_rows::PayloadParams;
use sdp_formats_values::FormatParam;
use std::alloc::{AllocError, Global};

#[tactic(auto, unfolding(crate::specs::Attributes::fmtp_of))]
fn push_fmtp(
    attributes: &mut Vec<MediaAttribute>,
    pt: Pt,
    params: Vec<FormatParam>,
) -> Result<(), AllocError>
    ensures { OnOk result (attributes.new.items ≡ attributes.old.items ++ fmtp_of pt params.items) }
{
    if params.is_empty() {
        return Ok(());
    }
    attributes.push(MediaAttribute::Fmtp {
        pt,
        values: Listed::of(params),
    })?;
    Ok(())
}

/// A type mapped to a codec, with one parameter.
fn push_link(
    alloc: Global,
    attributes: &mut Vec<MediaAttribute>,
    pt: Pt,
    value: RtpMap,
    param: FormatParam,
) -> Result<(), AllocError>
    ensures { OnOk result (attributes.new.items
        ≡ attributes.old.items ++ link_lines pt value param) }
{
    let mut params = Vec::new(alloc);
    params.push(param)?;
    attributes.push(MediaAttribute::RtpMap { pt, value })?;
    attributes.push(MediaAttribute::Fmtp {
        pt,
        values: Listed::of(params),
    })?;
    Ok(())
}

#[tactic(auto, unfolding(crate::specs::Attributes::resend_lines))]
fn push_resend(
    alloc: Global,
    attributes: &mut Vec<MediaAttribute>,
    row: &PayloadParams,
    resend: Option<Pt>,
) -> Result<(), AllocError>
    ensures { OnOk result (attributes.new.items ≡ attributes.old.items ++ resend_lines row.now resend) }
{
    let Some(pt) = resend else {
        return Ok(());
    };
    let map = RtpMap {
        codec: Codec::Rtx,
        clock_rate: row.spec().rtp_clock_rate(),
        channels: None,
    };
    push_link(alloc, attributes, pt, map, FormatParam::Apt(row.pt()))
}

#[tactic(auto, unfolding(crate::specs::Attributes::red_lines))]
fn push_red(
    alloc: Global,
    attributes: &mut Vec<MediaAttribute>,
    row: &PayloadParams,
    red: Option<Pt>,
) -> Result<(), AllocError>
    ensures { OnOk result (attributes.new.items ≡ attributes.old.items ++ red_lines row.now red) }
{
    let Some(pt) = red else {
        return Ok(());
    };
    let map = RtpMap {
        codec: Codec::Red,
        clock_rate: row.spec().rtp_clock_rate(),
        channels: row.spec().channels,
    };
    push_link(alloc, attributes, pt, map, FormatParam::Red(row.pt()))
}

/// Rows as sections list them.
pub trait AsMediaAttrs {
    /// The attributes that list a row in a section: `a=rtpmap`, `a=rtcp-fb` and `a=fmtp` of its type, then those of its
    /// type of retransmissions and of its RED type (RFC 8866 6.6 and 6.15, RFC 4585 4.2, RFC 4588 8.6, RFC 2198 5).
    ///
    /// # Errors
    ///
    /// `AllocError` if memory runs out.
    fn as_media_attrs(&self, alloc: Global) -> Result<Vec<MediaAttribute>, AllocError>;
}

impl AsMediaAttrs for PayloadParams {
    fn as_media_attrs(&self, alloc: Global) -> Result<Vec<MediaAttribute>, AllocError>
        ensures { IfOk result (λ attributes. attributes.items ≡ attributes_of self.now) }
    {
        let spec = self.spec();
        let mut attributes = Vec::new(alloc);
        attributes.push(MediaAttribute::RtpMap {
            pt: self.pt(),
            value: spec.to_rtp_map(),
        })?;
        push_feedback(alloc, &mut attributes, self)?;
        push_fmtp(&mut attributes, self.pt(), params_in(alloc, &spec)?)?;
        push_resend(alloc, &mut attributes, self, self.resend())?;
        push_red(alloc, &mut attributes, self, self.red())?;
        Ok(attributes)
    }
}
