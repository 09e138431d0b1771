//! The sources of a section.

ghost use Rattle.sdp_formats_laws.specs.Sources.{SourcesAreEachOnce, SourcesAreNamed};

/// The sources of a section are exactly those that its attributes name, none twice, and in the order in which they are
/// first there, where those of lines `a=ssrc` come first (RFC 5576 4.1) and then those that repair others (RFC 4588
/// 8.3). So a source is among them if a line `a=ssrc` speaks of it or a group of retransmission lets it repair
/// another, and nowhere else.
pub fn sources_once_law()
    ensures exactly { SourcesAreEachOnce }
    ensures named { SourcesAreNamed }
{}
