//! Sections by their names.

ghost use Rattle.std.specs.Prelude.{◌≡◌};
ghost use Rattle.std.specs.Option.{option_copied};
ghost use Rattle.rtp_media_sections.specs.Agreement.{section_of};

use rtp_media_sections::AgreedSection;
use rtp_wire::Mid;

/// The first section of a name.
pub(crate) fn section_named(sections: &[AgreedSection], mid: Mid) -> Option<&AgreedSection>
    ensures { option_copied result ≡ section_of sections.now mid }
{
    for section in sections {
        if section.is_named(mid) {
            return Some(section);
        }
    }
    None
}
