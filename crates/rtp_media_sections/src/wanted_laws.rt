//! Sections as an end wants them, printed and read.

ghost use Rattle.rtp_media_sections.specs.WantedSections.{AnsweredSectionsNameWanted, OfferedSectionsNameWanted};

/// What is read of the sections that an end offers, and of those by which it answers, has the names and kinds of the
/// wanted sections, and names their SSRCs and their repairs (RFC 5576 4.1, RFC 4588 8.3).
pub fn wanted_sections_law()
    ensures offered { OfferedSectionsNameWanted }
    ensures answered { AnsweredSectionsNameWanted }
{}
