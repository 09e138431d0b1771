//! Sections that are offered and that answer.

ghost use Rattle.rtp_media_sections.specs.PrintableSections.{AnsweredSectionsArePrintable};
ghost use Rattle.rtp_media_sections.specs.PrintableSections.{OfferedSectionsArePrintable};

/// The sections that an end offers and those by which it answers are printable, if the end's rows are plain and of
/// distinct types, the URIs of its map can be in lines, and the section has a name and lists some row.
pub fn printable_sections_law()
    ensures offered { OfferedSectionsArePrintable }
    ensures answered { AnsweredSectionsArePrintable }
{}
