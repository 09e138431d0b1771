//! The names of sections.

ghost use Rattle.rtp_media_runs.specs.Names.{NamesAreDistinct};

/// Sections may be beside one another, as far as their names go, if and only if no two of them have the same name: a
/// name is unique in a session description (RFC 5888 4).
pub fn names_law()
    ensures exactly { NamesAreDistinct }
{}
