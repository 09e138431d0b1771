//! Streams that are seen without a row for them.

use std::alloc::AllocError;

/// Packets of an SSRC, a payload type and a port, of which no row is known.
#[derive(Clone, Copy)]
pub(crate) struct Seen {
    pub(crate) ssrc: u32,
    pub(crate) pt: u8,
    /// The port that they go to, if the capture says it.
    pub(crate) port: Option<u16>,
    pub(crate) datagrams: u64,
}

/// Counts a packet of these, at most so many apart; returns whether it is counted.
pub(crate) fn note(
    seen: &mut Vec<Seen>,
    most: usize,
    ssrc: u32,
    pt: u8,
    port: Option<u16>,
) -> Result<bool, AllocError> {
    for one in seen.iter_mut() {
        if one.ssrc == ssrc && one.pt == pt && one.port == port {
            one.datagrams = one.datagrams.saturating_add(1);
            return Ok(true);
        }
    }
    if seen.len() >= most {
        return Ok(false);
    }
    seen.push(Seen {
        ssrc,
        pt,
        port,
        datagrams: 1,
    })?;
    Ok(true)
}
