//! What is sent: a row, and a sample of it.

ghost use Rattle.std.specs.Prelude.{◌≡◌, ◌<◌, None};

use media_types::Codec;
use rtp_media_streams::{PayloadTypes, RowFormat};
use rtp_wire::{Extension, ExtensionMap, ExtensionValues, Frequency, Mid, Pt};
use std::alloc::{AllocError, Global};

/// A row under its name, whether it has redundancy and header extensions, and a sample.
#[derive(Clone, Copy, Drop)]
pub(crate) struct Line<'a> {
    pub(crate) name: &'a str,
    pub(crate) row: RowFormat,
    pub(crate) has_red: bool,
    pub(crate) has_extensions: bool,
    pub(crate) sample: &'a [u8],
}

/// A row of audio, with redundancy or without, of AMR-WB with its layout.
pub(crate) fn audio<'a>(
    name: &'a str,
    codec: Codec,
    has_red: bool,
    octet_align: Option<bool>,
    sample: &'a [u8],
) -> Line<'a> {
    let row = RowFormat {
        codec,
        clock_rate: Frequency::FORTY_EIGHT_KHZ,
        octet_align,
        sprop_max_don_diff: None,
    };
    Line {
        name,
        row,
        has_red,
        has_extensions: false,
        sample,
    }
}

/// A row of video.
pub(crate) fn video<'a>(name: &'a str, codec: Codec, sample: &'a [u8]) -> Line<'a> {
    let row = RowFormat {
        codec,
        clock_rate: Frequency::NINETY_KHZ,
        octet_align: None,
        sprop_max_don_diff: None,
    };
    Line {
        name,
        row,
        has_red: false,
        has_extensions: false,
        sample,
    }
}

/// The map of header extensions of a line: none, or the three that browsers send most.
pub(crate) fn extensions(line: &Line<'_>) -> ExtensionMap {
    let mut map = ExtensionMap::empty();
    if line.has_extensions {
        map.set(2, Extension::AbsoluteSendTime);
        map.set(3, Extension::TransportSequenceNumber);
        map.set(4, Extension::RtpMid);
    }
    map
}

/// The values that a line's datagrams carry.
pub(crate) fn values(line: &Line<'_>) -> ExtensionValues {
    let mut values = ExtensionValues::absent();
    if line.has_extensions {
        values.abs_send_time = Some(1_000_000);
        values.transport_cc = Some(7);
        values.mid = Some(Mid::from("0"));
    }
    values
}

/// The payload types of every stream.
pub(crate) fn types(line: &Line<'_>) -> PayloadTypes
    ensures pt { result.pt < 128 }
    ensures repair { result.repair ≡ None }
{
    PayloadTypes {
        pt: Pt::from(111),
        red: if line.has_red {
            Some(Pt::from(63))
        } else {
            None
        },
        repair: None,
    }
}

/// So many bytes that begin with these.
pub(crate) fn sample_of(alloc: Global, head: &[u8], size: usize) -> Result<Vec<u8>, AllocError> {
    let mut sample = Vec::with_capacity(alloc, size)?;
    sample.extend_from_slice(head)?;
    sample.resize(size, 8)?;
    Ok(sample)
}
