//! Versions of texts for a browser.

ghost use Rattle.std.specs.Prelude.{◌≡◌, IfErr, IfOk};
ghost use Rattle.std.specs.String.{string_bytes};
ghost use Rattle.rtp_media_browsers.specs.Identities.{behind_line, next_version, said_of, text_of};
ghost use Rattle.rtp_media_browsers.specs.Identities.{told_text, user_of, version_of, with_origin};
ghost use Rattle.rtp_media_browsers.specs.Reading.{IsUnwritten, IsWritten};

use crate::error::BrowserError;
use crate::identity::{Identity, Said};
use crate::reading::is_said;
use sdp_formats_data::Sdp;
use sdp_formats_grammar::{Text, halves};
use std::alloc::{AllocError, Global};

/// The user name of `o=`.
fn user_of(identity: &Option<Identity>) -> &str
    ensures { result.now ≡ user_of identity.now }
{
    match identity {
        Some(identity) => identity.user.as_str(),
        None => "str0m-0.25.0",
    }
}

/// The lines `v=` and `o=`, and what follows them.
fn with_origin(
    alloc: Global,
    user: &str,
    id: u64,
    version: u64,
    body: &str,
) -> Result<String, AllocError>
    ensures { IfOk result (λ t. string_bytes t ≡ with_origin user.now id version body.now) }
{
    format!(in alloc; "v=0\r\no={user} {id} {version} IN IP4 0.0.0.0\r\n{body}")
}

/// A text without its first line.
fn behind_line(text: &str) -> &str
    ensures { result.now ≡ behind_line text.now }
{
    match halves(text, '\n') {
        (_, Some(rest)) => rest,
        (_, None) => "",
    }
}

/// A text of this user name and this version.
fn text_of(alloc: Global, user: &str, version: u64, sdp: &Sdp) -> Result<String, AllocError>
    ensures { IfOk result (λ t. string_bytes t ≡ text_of user.now version sdp.now) }
{
    let text = sdp.to_sdp_string(alloc)?;
    let body = behind_line(behind_line(text.as_str()));
    with_origin(alloc, user, sdp.session.id.get(), version, body)
}

/// The next version; the last one that there is stays.
fn next_version(version: u64) -> u64
    ensures { result ≡ next_version version }
{
    if version == u64::MAX {
        return version;
    }
    version + 1
}

/// The version of a text after the last one.
fn version_of(last: &Option<Said>, text: &str) -> u64
    ensures { result ≡ version_of last.now text.now }
{
    match last {
        Some(last) => {
            if last.text.as_str() == text {
                return last.version;
            }
            next_version(last.version)
        }
        None => 2,
    }
}

/// What is remembered of a text after the last one.
fn said_of(
    alloc: Global,
    identity: &Option<Identity>,
    last: &Option<Said>,
    sdp: &Sdp,
) -> Result<Said, AllocError>
    ensures { IfOk result (λ s. s ≡ said_of identity.now last.now sdp.now) }
{
    let text = text_of(alloc, user_of(identity), 0, sdp)?;
    Ok(Said {
        version: version_of(last, text.as_str()),
        text: Text::of(text),
    })
}

/// A text that is read as that value.
///
/// # Errors
///
/// `NotWritable` if it isn't; `Memory`.
fn written(alloc: Global, text: String, sdp: &Sdp) -> Result<String, BrowserError>
    ensures written { IfOk result (λ out. IsWritten (string_bytes text) sdp.now (string_bytes out)) }
    ensures refused { IfErr result (λ e. IsUnwritten (string_bytes text) sdp.now e) }
{
    if !is_said(alloc, text.as_str(), sdp)? {
        return Err(BrowserError::NotWritable);
    }
    Ok(text)
}

/// What a browser gets after the last text, and what is remembered of it.
///
/// # Errors
///
/// `NotWritable` if it isn't read as that value; `Memory`.
pub(crate) fn told_text(
    alloc: Global,
    identity: &Option<Identity>,
    last: &Option<Said>,
    sdp: &Sdp,
) -> Result<(String, Said), BrowserError>
    ensures written { IfOk result (λ r. IsWritten (told_text identity.now last.now sdp.now) sdp.now
        (string_bytes r.0)) }
    ensures said { IfOk result (λ r. r.1 ≡ said_of identity.now last.now sdp.now) }
    ensures refused { IfErr result (λ e. IsUnwritten (told_text identity.now last.now sdp.now) sdp.now e) }
{
    let said = said_of(alloc, identity, last, sdp)?;
    let text = text_of(alloc, user_of(identity), said.version, sdp)?;
    Ok((written(alloc, text, sdp)?, said))
}
