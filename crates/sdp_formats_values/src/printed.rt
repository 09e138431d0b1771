//! Format parameters as they are printed (RFC 8866 6.15).

ghost use Rattle.std.specs.Prelude.{◌≡◌};
ghost use Rattle.std.specs.Fmt.{DisplaysOnOk};
ghost use Rattle.sdp_formats_values.specs.PrintedParameters.{flag_digit, has_mode, name_before, named_output};

use crate::numbers::bit_of;
use crate::param::FormatParam;
use std::fmt;
use std::fmt::Display;

fn digit(flag: bool) -> u8
    ensures { result ≡ flag_digit flag }
{
    if flag { 1 } else { 0 }
}

/// Is the bit of the mode set, and the mode one of 0 to 8 (RFC 4867 8.2)?
pub fn has_mode(modes: u16, mode: u8) -> bool
    ensures { result ≡ has_mode modes mode }
{
    mode <= 8 && modes / bit_of(mode) % 2 == 1
}

// A profile, tier and level, by their numbers.
#[derive(Drop)]
struct Levels(u8, u8, u8);

impl fmt::Display for Levels {
    ghost use Rattle.std.specs.Prelude.{Some};
    ghost use Rattle.sdp_formats_values.specs.PrintedParameters.{levels_text};

    ghost output = { λ l. Some (levels_text l.0 l.1 l.2) };

    fn fmt<W: fmt::Write>(&self, f: &mut fmt::Formatter<W>) -> fmt::Result {
        let (profile, tier, level) = (self.0, self.1, self.2);
        write!(f, "profile-id={profile};tier-flag={tier};level-id={level}")
    }
}

// A mode, after a comma if it isn't the first.
#[derive(Drop)]
struct Mode(bool, u8);

impl fmt::Display for Mode {
    ghost use Rattle.std.specs.Prelude.{Some};
    ghost use Rattle.sdp_formats_values.specs.PrintedParameters.{mode_text};

    ghost output = { λ m. Some (mode_text m.0 m.1) };

    fn fmt<W: fmt::Write>(&self, f: &mut fmt::Formatter<W>) -> fmt::Result {
        let mode = self.1;
        if self.0 {
            return write!(f, "{mode}");
        }
        write!(f, ",{mode}")
    }
}

// Modes of AMR-WB, a bit each.
#[derive(Drop)]
struct Modes(u16);

impl fmt::Display for Modes {
    ghost use Rattle.std.specs.Prelude.{Some};
    ghost use Rattle.sdp_formats_values.specs.PrintedParameters.{modes_text};

    ghost output = { λ m. Some (modes_text m.0) };

    fn fmt<W: fmt::Write>(&self, f: &mut fmt::Formatter<W>) -> fmt::Result {
        let all = [0, 1, 2, 3, 4, 5, 6, 7, 8];
        let mut left: &[u8] = &all;
        let mut is_first = true;
        while let Some((mode, after)) = left.split_first() {
            left = after;
            if has_mode(self.0, *mode) {
                let mode = Mode(is_first, *mode);
                write!(f, "{mode}")?;
                is_first = false;
            }
        }
        Ok(())
    }
}

/// What is before the value of a parameter whose value is a flag or a byte; nothing for another.
fn name_before(param: &FormatParam) -> &'static str
    ensures { result.now ≡ name_before param.now }
{
    match param {
        FormatParam::UseInbandFec(_) => "useinbandfec=",
        FormatParam::UseDtx(_) => "usedtx=",
        FormatParam::Stereo(_) => "stereo=",
        FormatParam::SpropStereo(_) => "sprop-stereo=",
        FormatParam::LevelAsymmetryAllowed(_) => "level-asymmetry-allowed=",
        FormatParam::OctetAlign(_) => "octet-align=",
        FormatParam::MinPTime(_) => "minptime=",
        FormatParam::PacketizationMode(_) => "packetization-mode=",
        FormatParam::Profile(_) => "profile=",
        FormatParam::LevelIdx(_) => "level-idx=",
        FormatParam::Tier(_) => "tier=",
        FormatParam::TelephoneEvents(_) | FormatParam::BareRange(_) => "0-",
        _ => "",
    }
}

/// Writes a parameter's name and its value.
fn write_named<W: fmt::Write, T: fmt::Display>(
    f: &mut fmt::Formatter<W>,
    name: &str,
    value: &T,
) -> fmt::Result
    ensures { DisplaysOnOk W.write_str_gives f.old result (named_output name.now (T.Display.output value.now)) f.new }
{
    write!(f, "{name}{value}")
}

impl fmt::Display for FormatParam {
    ghost use Rattle.std.specs.Prelude.{Some};
    ghost use Rattle.sdp_formats_values.specs.PrintedParameters.{param_text};

    ghost output = { λ p. Some (param_text p) };

    #[tactic(auto, unfolding(crate::specs::PrintedParameters::param_text))]
    fn fmt<W: fmt::Write>(&self, f: &mut fmt::Formatter<W>) -> fmt::Result {
        match self {
            FormatParam::UseInbandFec(v)
            | FormatParam::UseDtx(v)
            | FormatParam::Stereo(v)
            | FormatParam::SpropStereo(v)
            | FormatParam::LevelAsymmetryAllowed(v)
            | FormatParam::OctetAlign(v) => write_named(f, name_before(self), &digit(*v)),
            FormatParam::MinPTime(v)
            | FormatParam::PacketizationMode(v)
            | FormatParam::Profile(v)
            | FormatParam::LevelIdx(v)
            | FormatParam::Tier(v)
            | FormatParam::TelephoneEvents(v)
            | FormatParam::BareRange(v) => write_named(f, name_before(self), v),
            FormatParam::ProfileLevelId(v) => write!(f, "profile-level-id={v:06x}"),
            FormatParam::ProfileId(v) => write_named(f, "profile-id=", v),
            FormatParam::H265ProfileTierLevel(v) => {
                Levels(v.profile_id(), v.tier_flag(), v.level_id()).fmt(f)
            }
            FormatParam::H266ProfileTierLevel(v) => {
                Levels(v.profile_id(), v.tier_flag(), v.level_id()).fmt(f)
            }
            FormatParam::SpropMaxDonDiff(v) => write_named(f, "sprop-max-don-diff=", v),
            FormatParam::BarePtList(pt) | FormatParam::Red(pt) => {
                let again = pt;
                write!(f, "{pt}/{again}")
            }
            FormatParam::ModeSet(modes) => write_named(f, "mode-set=", &Modes(*modes)),
            FormatParam::Apt(pt) => write_named(f, "apt=", pt),
            FormatParam::AmrWbUnsupported | FormatParam::Unknown => Ok(()),
        }
    }
}

/// As it is printed.
impl fmt::Debug for FormatParam {
    ghost use Rattle.std.specs.Prelude.{Some};
    ghost use Rattle.sdp_formats_values.specs.PrintedParameters.{param_text};

    ghost debug_output = { λ p. Some (param_text p) };

    fn fmt<W: fmt::Write>(&self, f: &mut fmt::Formatter<W>) -> fmt::Result {
        fmt::Display::fmt(self, f)
    }
}
