//! What a browser is told of the end.

use rtp_media_browsers::{BrowserState, Identity, Track};
use rtp_wire::Mid;
use sdp_formats_grammar::{Listed, Text};
use sdp_formats_values::Msid;
use std::alloc::{AllocError, Global};
use words_and_replies::parted;

fn text(alloc: Global, text: &str) -> Result<Text, AllocError> {
    Ok(Text::of(String::from_str(alloc, text)?))
}

/// This user name and this CNAME, without tracks.
pub(crate) fn identity(alloc: Global, user: &str, cname: &str) -> Result<Identity, AllocError> {
    Ok(Identity {
        user: text(alloc, user)?,
        cname: text(alloc, cname)?,
        tracks: Listed::new(alloc),
    })
}

/// Adds the stream and the track of a section, which two words name.
pub(crate) fn add_track(
    alloc: Global,
    state: &mut BrowserState,
    mid: &str,
    words: &str,
) -> Result<(), AllocError> {
    let (stream, track) = parted(words);
    let msid = Msid {
        stream_id: text(alloc, stream)?,
        track_id: text(alloc, track)?,
    };
    if let Some(identity) = &mut state.identity {
        let mid = Mid::from(mid);
        identity.tracks.push(Track { mid, msid })?;
    }
    Ok(())
}
