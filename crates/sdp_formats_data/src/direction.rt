//! Which way a section's media goes (RFC 8866 6.7).

ghost use Rattle.std.specs.Prelude.{◌≡◌};
ghost use Rattle.sdp_formats_data.specs.Media.{is_direction, direction_attribute};

use crate::media::MediaAttribute;
use rtp_wire::Direction;

impl MediaAttribute {
    /// Whether it is one of the four directions.
    pub fn is_direction(&self) -> bool
        ensures { result ≡ is_direction self.now }
    {
        matches!(
            self,
            MediaAttribute::RecvOnly
                | MediaAttribute::SendRecv
                | MediaAttribute::SendOnly
                | MediaAttribute::Inactive
        )
    }
}

impl From<Direction> for MediaAttribute {
    ghost from_gives = { λ d a. a ≡ direction_attribute d };

    fn from(direction: Direction) -> MediaAttribute {
        match direction {
            Direction::SendOnly => MediaAttribute::SendOnly,
            Direction::RecvOnly => MediaAttribute::RecvOnly,
            Direction::SendRecv => MediaAttribute::SendRecv,
            Direction::Inactive => MediaAttribute::Inactive,
        }
    }
}
