//! The types that a section maps to codecs.

ghost use Rattle.sdp_formats_laws.specs.Mapped.{EachTypeIsMapped, StaticTypesAreBehind};

/// The mappings of a section are those of its `a=rtpmap` lines, followed by one for each listed
/// static type that no line maps, in list order (RFC 8866 6.6, RFC 3551 6). So a type that a line
/// maps has only the lines' mappings; another listed type has its static one, if there is one; any
/// other type has none.
pub fn mapped_types_law()
    ensures behind { StaticTypesAreBehind }
    ensures each { EachTypeIsMapped }
{}
