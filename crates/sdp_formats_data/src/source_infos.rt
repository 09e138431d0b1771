//! What a section says of each of its sources.

ghost use Rattle.std.specs.Prelude.{◌≡◌, [], IfOk, map};
ghost use Rattle.sdp_formats_data.specs.KnownSources.{info_with};
ghost use Rattle.sdp_formats_data.specs.Sources.{infos_of};

use crate::known::Known;
use crate::media::MediaLine;
use crate::sources::sources_of;
use rtp_wire::Ssrc;
use sdp_formats_values::SsrcInfo;
use std::alloc::{AllocError, Global};

/// What is known of each of these sources.
fn infos_by(alloc: Global, known: &Known<'_>, sources: &[Ssrc]) -> Result<Vec<SsrcInfo>, AllocError>
    ensures { IfOk result (λ infos. infos.items ≡ map (info_with known.now []) sources.now) }
{
    let mut infos = Vec::new(alloc);
    for source in sources {
        infos.push(known.info(alloc, *source)?)?;
    }
    Ok(infos)
}

impl MediaLine {
    /// What a section says of its sources (RFC 5576): first those of its `a=ssrc` lines, then those that its groups of
    /// retransmission let repair others (RFC 4588 8.3), each once, in the order in which they are first named. Of what
    /// is said more than once of a source the last counts.
    ///
    /// # Errors
    ///
    /// `AllocError` if memory runs out.
    pub fn ssrc_info(&self, alloc: Global) -> Result<Vec<SsrcInfo>, AllocError>
        ensures { IfOk result (λ infos. infos.items ≡ infos_of self.now.attrs) }
    {
        let attributes = self.attrs.as_slice();
        let sources = sources_of(alloc, attributes)?;
        let known = Known::from_attributes(alloc, attributes)?;
        infos_by(alloc, &known, sources.as_slice())
    }
}
