//! Why a browser's text, or a text for one, is refused.

use rtp_wire::Mid;
use std::alloc::{AllocError, AllocFailed};
use thiserror::Error;

/// Why a browser's text, or a text for one, is refused; of several reasons the first in this list
/// is returned.
#[derive(Clone, Copy, Debug, PartialEq, Eq, Drop, Error)]
pub enum BrowserError {
    /// The text isn't SDP, or has an inconsistent section.
    #[error("the text can't be read")]
    Unreadable,
    /// A line fits nowhere, such as an `m=` line with another protocol: what follows would be lost.
    #[error("the text has a rest that can't be read")]
    RestUnread,
    /// Reading changes this mid: it is longer than 16 bytes, or contains anything but ASCII
    /// letters, digits and underscores.
    #[error("the name of section {0} can't be kept")]
    MidNotKept(Mid),
    /// Two sections have the same mid.
    #[error("two sections have one name")]
    MidTwice,
    /// The sections don't start with those of the state, by mid.
    #[error("the sections are not those of the state")]
    NotCorresponding,
    /// The browser rejects this section of the end's offer: withdraw the offer, and make it without
    /// the section.
    #[error("section {0} is rejected")]
    Rejected(Mid),
    /// There are several BUNDLE groups, and so several transports.
    #[error("there are several bundles")]
    SeveralBundles,
    /// This section is in no bundle, and so has a transport of its own.
    #[error("section {0} is outside of the bundle")]
    OutsideBundle(Mid),
    /// No section is left for the end.
    #[error("no section is left")]
    NothingLeft,
    /// This section has SDES keys, but there is no fingerprint for it.
    #[error("section {0} has keys and no fingerprint")]
    KeysAlone(Mid),
    /// The ICE ufrag isn't 4 to 256 letters, digits, `+` and `/`.
    #[error("the name of ICE doesn't fit")]
    UfragNotFit,
    /// The ICE password isn't 22 to 256 letters, digits, `+` and `/`.
    #[error("the password of ICE doesn't fit")]
    PasswordNotFit,
    /// The DTLS role isn't the one answered before, or is the browser's own; or it is actpass in an
    /// answer.
    #[error("the setup doesn't fit")]
    SetupNotFit,
    /// The text would not read back as what it should say.
    #[error("the text can't be written")]
    NotWritable,
    /// Out of memory.
    #[error("out of memory")]
    Memory,
}

impl From<AllocError> for BrowserError {
    ghost use Rattle.std.specs.Prelude.{◌≡◌};
    ghost use Rattle.rtp_media_browsers.specs.declared.error.BrowserError.TheVariants.{Memory};

    ghost from_gives = { λ _ e. e ≡ Memory };

    fn from(_error: AllocError) -> BrowserError {
        BrowserError::Memory
    }
}

impl<T: Drop> From<AllocFailed<T>> for BrowserError {
    ghost use Rattle.std.specs.Prelude.{◌≡◌};
    ghost use Rattle.rtp_media_browsers.specs.declared.error.BrowserError.TheVariants.{Memory};

    ghost from_gives = { λ _ e. e ≡ Memory };

    fn from(_error: AllocFailed<T>) -> BrowserError {
        BrowserError::Memory
    }
}
