//! Which way media flows.

ghost use Rattle.std.specs.Prelude.{◌≡◌, ◌||◌};
ghost use Rattle.rtp_wire.specs.Direction.{text_of, direction_of, inverted, sends, receives};

use std::fmt;

/// Which way media flows, as seen from one side (RFC 8866 6.7).
#[derive(Clone, Copy, Debug, PartialEq, Eq, Hash, Drop)]
pub enum Direction {
    /// Sends and does not receive.
    SendOnly,
    /// Receives and does not send.
    RecvOnly,
    /// Sends and receives.
    SendRecv,
    /// Neither sends nor receives.
    Inactive,
}

impl Direction {
    /// The same flow as seen from the other side.
    pub fn invert(&self) -> Self
        ensures value { result ≡ inverted self.now }
        ensures twice { inverted result ≡ self.now }
    {
        match self {
            Direction::SendOnly => Direction::RecvOnly,
            Direction::RecvOnly => Direction::SendOnly,
            Direction::SendRecv => Direction::SendRecv,
            Direction::Inactive => Direction::Inactive,
        }
    }

    /// Whether this side sends.
    pub fn is_sending(&self) -> bool
        ensures { result ≡ sends self.now }
    {
        matches!(self, Direction::SendOnly | Direction::SendRecv)
    }

    /// Whether this side receives.
    pub fn is_receiving(&self) -> bool
        ensures { result ≡ receives self.now }
    {
        matches!(self, Direction::RecvOnly | Direction::SendRecv)
    }

    /// The word for it in a session text.
    pub fn as_str(&self) -> &'static str
        ensures { result.now ≡ text_of self.now }
    {
        match self {
            Direction::SendOnly => "sendonly",
            Direction::RecvOnly => "recvonly",
            Direction::SendRecv => "sendrecv",
            Direction::Inactive => "inactive",
        }
    }
}

/// The direction of a word; any other text is `Inactive`.
impl From<&str> for Direction {
    ghost from_gives = { λ text d. d ≡ direction_of text.now };

    fn from(text: &str) -> Direction {
        match text {
            "sendonly" => Direction::SendOnly,
            "recvonly" => Direction::RecvOnly,
            "sendrecv" => Direction::SendRecv,
            _ => Direction::Inactive,
        }
    }
}

impl fmt::Display for Direction {
    ghost use Rattle.std.specs.Prelude.{Some};

    ghost output = { λ d. Some (text_of d) };

    fn fmt<W: fmt::Write>(&self, f: &mut fmt::Formatter<W>) -> fmt::Result {
        f.write_str(self.as_str())
    }
}

/// What holds of every direction: seen twice from the other side it is itself, and its word means it.
pub fn direction_laws()
    ensures inverts { (d : Direction) → inverted (inverted d) ≡ d }
    ensures reads { (d : Direction) → direction_of (text_of d) ≡ d }
{}
