//! What holds of the header extensions that sections list.

ghost use Rattle.rtp_media_sections.specs.Extensions.{LastEntriesCount};

/// Of the extensions of one number from 1 to 16 the last one counts, and a number that is given none has none (RFC 8285
/// 5).
pub fn extmaps_law()
    ensures { LastEntriesCount }
{}
