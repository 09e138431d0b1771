//! How the units of H.265 and H.266 are laid out (RFC 7798 1.1.4, 4.2 and 4.4; RFC 9328 1.1.4 and 4.3).

ghost use Rattle.h26x_payload_units.specs.Headers.{aggregate_high, aggregate_low, fragment_type, fu_byte, fu_type};
ghost use Rattle.h26x_payload_units.specs.Headers.{has_end, has_f, has_start, high_with, is_irap, kind_of, layer_in};
ghost use Rattle.h26x_payload_units.specs.Headers.{low_with, needs_vps, type_of, unit_kind, unit_type};
ghost use Rattle.h26x_payload_units.specs.Numbers.{dond_size, donl_size};
ghost use Rattle.h26x_payload_units.specs.Reading.{begins_by};
ghost use Rattle.std.specs.Prelude.{◌≡◌};

/// Whose units a packet carries. Both codecs' headers have two bytes, with a layer and a TID in them.
#[derive(Clone, Copy, Drop)]
pub enum Layout {
    /// H.265 (RFC 7798).
    H265,
    /// H.266 (RFC 9328).
    H266,
}

/// What a packet is by its type (RFC 6184 5.2, RFC 7798 4.2, RFC 9328 4.3).
#[derive(Clone, Copy, Drop)]
pub enum PacketKind {
    /// A unit alone.
    Single,
    /// Units after their sizes.
    Aggregate,
    /// A part of a unit.
    Fragment,
    /// A type that isn't read.
    Unhandled,
}

/// What a unit is to a sender by its type.
#[derive(Clone, Copy, Drop)]
pub enum UnitKind {
    /// An access unit delimiter or filler data, which isn't sent.
    Unsent,
    /// A video parameter set.
    Vps,
    /// A sequence parameter set.
    Sps,
    /// A picture parameter set.
    Pps,
    /// Any other unit.
    Other,
}

impl PacketKind {
    /// Whether a packet of this kind is the head of a frame, given the bytes after its header: a
    /// fragment if it has S; any other packet always.
    pub fn is_head(self, body: &[u8]) -> bool
        ensures { result ≡ begins_by self body.now }
    {
        match self {
            PacketKind::Fragment => match body.first() {
                Some(fu) => has_start(*fu),
                None => false,
            },
            _ => true,
        }
    }
}

/// F in the first byte of a header.
pub fn has_f(high: u8) -> bool
    ensures { result ≡ has_f high }
{
    high >= 128
}

/// S in the byte after a fragment's header.
pub fn has_start(fu: u8) -> bool
    ensures { result ≡ has_start fu }
{
    fu / 128 % 2 == 1
}

/// E in the byte after a fragment's header.
pub fn has_end(fu: u8) -> bool
    ensures { result ≡ has_end fu }
{
    fu / 64 % 2 == 1
}

/// How many bytes a decoding order number has, if there is one.
pub fn donl_size(donl: bool) -> usize
    ensures { result ≡ donl_size donl }
{
    if donl { 2 } else { 0 }
}

impl Layout {
    /// The type in a header.
    pub fn type_of(self, high: u8, low: u8) -> u8
        ensures { result ≡ type_of self high low }
    {
        match self {
            Layout::H265 => high / 2 % 64,
            Layout::H266 => low / 8,
        }
    }

    /// The type of a unit. A byte that is not there counts as 0.
    pub fn unit_type(self, unit: &[u8]) -> u8
        ensures { result ≡ unit_type self unit.now }
    {
        match unit {
            [] => 0,
            [high] => self.type_of(*high, 0),
            [high, low, ..] => self.type_of(*high, *low),
        }
    }

    /// The first byte of a header with another type.
    pub fn high_with(self, high: u8, nalu_type: u8) -> u8
        ensures { result ≡ high_with self high nalu_type }
    {
        match self {
            Layout::H265 => high / 128 * 128 + nalu_type % 64 * 2 + high % 2,
            Layout::H266 => high,
        }
    }

    /// The second byte of a header with another type.
    pub fn low_with(self, low: u8, nalu_type: u8) -> u8
        ensures { result ≡ low_with self low nalu_type }
    {
        match self {
            Layout::H265 => low,
            Layout::H266 => nalu_type % 32 * 8 + low % 8,
        }
    }

    /// What a packet is by its header.
    pub fn kind_of(self, high: u8, low: u8) -> PacketKind
        ensures { result ≡ kind_of self high low }
    {
        match self {
            Layout::H265 => match high / 2 % 64 {
                0..=47 => PacketKind::Single,
                48 => PacketKind::Aggregate,
                49 => PacketKind::Fragment,
                _ => PacketKind::Unhandled,
            },
            Layout::H266 => match low / 8 {
                0..=27 => PacketKind::Single,
                28 => PacketKind::Aggregate,
                29 => PacketKind::Fragment,
                _ => PacketKind::Unhandled,
            },
        }
    }

    /// The type of fragments.
    pub fn fragment_type(self) -> u8
        ensures { result ≡ fragment_type self }
    {
        match self {
            Layout::H265 => 49,
            Layout::H266 => 29,
        }
    }

    /// Whether a type is that of a random access picture (ITU-T H.265 table 7-1, ITU-T H.266 table 5).
    pub fn is_irap(self, nalu_type: u8) -> bool
        ensures { result ≡ is_irap self nalu_type }
    {
        match self {
            Layout::H265 => matches!(nalu_type, 16..=23),
            Layout::H266 => matches!(nalu_type, 7..=9),
        }
    }

    /// What a unit of a type is to a sender (ITU-T H.265 table 7-1, ITU-T H.266 table 5).
    pub fn unit_kind(self, nalu_type: u8) -> UnitKind
        ensures { result ≡ unit_kind self nalu_type }
    {
        match self {
            Layout::H265 => match nalu_type {
                35 | 38 => UnitKind::Unsent,
                32 => UnitKind::Vps,
                33 => UnitKind::Sps,
                34 => UnitKind::Pps,
                _ => UnitKind::Other,
            },
            Layout::H266 => match nalu_type {
                20 | 25 => UnitKind::Unsent,
                14 => UnitKind::Vps,
                15 => UnitKind::Sps,
                16 => UnitKind::Pps,
                _ => UnitKind::Other,
            },
        }
    }

    /// Whether a VPS is required before the parameter sets are sent.
    pub fn needs_vps(self) -> bool
        ensures { result ≡ needs_vps self }
    {
        match self {
            Layout::H265 => true,
            Layout::H266 => false,
        }
    }

    /// The layer in a header.
    pub fn layer_in(self, high: u8, low: u8) -> u8
        ensures { result ≡ layer_in self high low }
    {
        match self {
            Layout::H265 => high % 2 * 32 + low / 8 % 32,
            Layout::H266 => high % 64,
        }
    }

    /// The first byte of an aggregate's header.
    pub fn aggregate_high(self, layer: u8) -> u8
        ensures { result ≡ aggregate_high self layer }
    {
        match self {
            Layout::H265 => 96 + layer / 32 % 2,
            Layout::H266 => layer % 64,
        }
    }

    /// The second byte of an aggregate's header.
    pub fn aggregate_low(self, layer: u8, tid: u8) -> u8
        ensures { result ≡ aggregate_low self layer tid }
    {
        match self {
            Layout::H265 => layer % 32 * 8 + tid % 8,
            Layout::H266 => 224 + tid % 8,
        }
    }

    /// How many bytes the difference to the decoding order number before has, if there is one.
    pub fn dond_size(self, donl: bool) -> usize
        ensures { result ≡ dond_size self donl }
    {
        match self {
            Layout::H265 if donl => 1,
            _ => 0,
        }
    }

    /// The type in the byte after a fragment's header.
    pub fn fu_type(self, fu: u8) -> u8
        ensures { result ≡ fu_type self fu }
    {
        match self {
            Layout::H265 => fu % 64,
            Layout::H266 => fu % 32,
        }
    }

    /// The byte after a fragment's header.
    pub fn fu_byte(self, first: bool, last: bool, nalu_type: u8) -> u8
        ensures { result ≡ fu_byte self first last nalu_type }
    {
        let start: u8 = if first { 128 } else { 0 };
        let end: u8 = if last { 64 } else { 0 };
        match self {
            Layout::H265 => start + end + nalu_type % 64,
            Layout::H266 => start + end + nalu_type % 32,
        }
    }
}
