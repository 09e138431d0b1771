//! Which payload format the datagrams of a capture have. Uses the crate `h26x_payload`.

use h26x_payload::{Codec, CodecDepacketizer, Frequency, NotBoxed};
use std::alloc::Global;
use std::str::SplitWhitespace;

/// The codec and payload type of a capture's streams, and the type of their redundant payloads.
#[derive(Clone, Copy)]
pub(crate) struct Capture {
    pub(crate) codec: Codec,
    pub(crate) pt: u8,
    pub(crate) red: Option<u8>,
}

impl Capture {
    /// What words say: `CODEC TYPE [REDTYPE]`.
    pub(crate) fn of(words: &mut SplitWhitespace<'_>) -> Option<Capture> {
        let codec = Codec::from(words.next()?);
        let pt = words.next()?.parse::<u8>().ok()?;
        let red = match words.next() {
            Some(word) => Some(word.parse::<u8>().ok()?),
            None => None,
        };
        Some(Capture { codec, pt, red })
    }

    /// Whether datagrams of this type are the stream's.
    pub(crate) fn has_type(&self, pt: u8) -> bool {
        self.pt == pt || self.red == Some(pt)
    }

    /// A depacketizer of the codec, with telephone events at 48 kHz; None if the codec has no payload format.
    pub(crate) fn depacketizer(&self, alloc: Global) -> Option<CodecDepacketizer<NotBoxed>> {
        let mut depacketizer = CodecDepacketizer::<NotBoxed>::new(alloc, self.codec)?;
        depacketizer.configure_for(None, None, Frequency::FORTY_EIGHT_KHZ);
        Some(depacketizer)
    }
}
