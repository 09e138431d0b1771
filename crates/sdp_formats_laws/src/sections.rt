//! What a section gives its payload types.

ghost use Rattle.sdp_formats_laws.specs.SectionFormats.{FormatsAreOfSections};
ghost use Rattle.sdp_formats_laws.specs.SectionLinks.{LastLinksCount};

/// The format that a section gives a codec with a payload type is exactly this (RFC 8866 6.15).
/// Telephone events: up to 16 if no `a=fmtp` line has the type; up to X if exactly one has it and
/// holds only a range `0-X`; otherwise no format (RFC 4733 2.4.1). AMR-WB: no format if a parameter
/// needs an unsupported feature (RFC 4867 8.2). Otherwise each parameter is the last of its kind in
/// the type's lines, or not given.
pub fn section_formats_law()
    ensures { FormatsAreOfSections }
{}

/// The type of retransmissions or of redundant audio of a payload type is that of the last line `a=fmtp` whose type is
/// mapped so and that names the payload type (RFC 4588 8.6, RFC 2198 5); none if there is no such line.
pub fn section_links_law()
    ensures { LastLinksCount }
{}
