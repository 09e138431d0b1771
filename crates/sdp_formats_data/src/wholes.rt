//! What a whole text says of its bundle and of its data channels.

ghost use Rattle.std.specs.Prelude.{◌≡◌};
ghost use Rattle.std.specs.Option.{option_copied};
ghost use Rattle.sdp_formats_data.specs.Wholes.{bundle_in, bundle_of, init_of};

use crate::session::{Sdp, SessionAttribute};
use rtp_wire::Mid;
use sdp_formats_grammar::Text;

impl Sdp {
    /// The sections of the first `a=group` of meaning `BUNDLE`: those that share one transport (RFC 9143 7).
    #[tactic(auto, unfolding(crate::specs::Wholes::bundle_in))]
    pub fn bundle_mids(&self) -> Option<&[Mid]>
        ensures { option_copied result ≡ bundle_of self.now }
    {
        let attributes = self.session.attrs.as_slice();
        for attribute in attributes {
            if let SessionAttribute::Group { typ, mids } = attribute {
                if typ.as_str() == "BUNDLE" {
                    return Some(mids.as_slice());
                }
            }
        }
        None
    }

    /// The parameters of the first `a=sctp-init` of the first section of data channels.
    pub fn sctp_init(&self) -> Option<&Text>
        ensures { option_copied result ≡ init_of self.now }
    {
        let sections = self.media_lines.as_slice();
        for section in sections {
            if section.typ.is_channel() {
                return section.sctp_init();
            }
        }
        None
    }
}
