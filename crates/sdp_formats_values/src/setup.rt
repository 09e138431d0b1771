//! Which end opens the connection: the DTLS role (RFC 4145 4).

ghost use Rattle.std.specs.Prelude.{◌≡◌};
ghost use Rattle.sdp_formats_values.specs.Setup.{setup_text, inverted, towards};

use std::fmt;

/// Which end opens the connection: the DTLS role (RFC 4145 4).
#[derive(Clone, Copy, Debug, PartialEq, Eq, Default, Drop)]
pub enum Setup {
    /// Either end: the other end chooses.
    #[default]
    ActPass,
    /// This end.
    Active,
    /// The other end.
    Passive,
}

impl Setup {
    /// The word for it in a session text.
    pub fn setup_line(&self) -> &'static str
        ensures { result.now ≡ setup_text self.now }
    {
        match self {
            Setup::ActPass => "actpass",
            Setup::Active => "active",
            Setup::Passive => "passive",
        }
    }

    /// The same choice as seen from the other end.
    pub fn invert(&self) -> Setup
        ensures value { result ≡ inverted self.now }
        ensures twice { inverted result ≡ self.now }
    {
        match self {
            Setup::ActPass => Setup::ActPass,
            Setup::Active => Setup::Passive,
            Setup::Passive => Setup::Active,
        }
    }

    /// The role of this end given the other end's; None if both leave it open, or both claim the
    /// same role (RFC 4145 4.1).
    pub fn compare_to_remote(&self, remote: Setup) -> Option<Setup>
        ensures { result ≡ towards self.now remote }
    {
        match (*self, remote) {
            (Setup::ActPass, Setup::ActPass) => None,
            (Setup::ActPass, Setup::Active) => Some(Setup::Passive),
            (Setup::ActPass, Setup::Passive) => Some(Setup::Active),
            (Setup::Active, Setup::ActPass) => Some(Setup::Active),
            (Setup::Active, Setup::Active) => None,
            (Setup::Active, Setup::Passive) => Some(Setup::Active),
            (Setup::Passive, Setup::ActPass) => Some(Setup::Passive),
            (Setup::Passive, Setup::Active) => Some(Setup::Passive),
            (Setup::Passive, Setup::Passive) => None,
        }
    }
}

impl fmt::Display for Setup {
    ghost use Rattle.std.specs.Prelude.{Some};

    ghost output = { λ s. Some (setup_text s) };

    fn fmt<W: fmt::Write>(&self, f: &mut fmt::Formatter<W>) -> fmt::Result {
        f.write_str(self.setup_line())
    }
}
