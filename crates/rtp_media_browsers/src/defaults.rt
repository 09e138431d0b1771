//! Rows and header extensions for ends that talk to browsers.

ghost use Rattle.std.specs.Prelude.{◌≡◌, ◌++◌, [], IfOk, OnErr, OnOk};
ghost use Rattle.rtp_media_browsers.specs.Defaults.{browser_rows, events_row, plain_row};
ghost use Rattle.rtp_wire.specs.Maps.{standard_map};
ghost use Rattle.sdp_formats_rounds.specs.Configs.{with_row};

use media_types::Codec;
use rtp_wire::{ExtensionMap, Frequency, Pt};
use sdp_formats_rounds::CodecConfig;
use sdp_formats_rows::FormatParams;
use std::alloc::{AllocError, Global};

/// Adds a row of audio without retransmissions and format.
fn add_plain(
    config: &mut CodecConfig,
    pt: u8,
    codec: Codec,
    clock_rate: Frequency,
) -> Result<(), AllocError>
    ensures { OnOk result (config.new ≡ with_row (plain_row pt codec clock_rate) config.old) }
{
    config.add_config(
        Pt::from(pt),
        None,
        codec,
        clock_rate,
        None,
        FormatParams::default(),
    )
}

/// Adds a row of the telephone events 0 to 15.
fn add_events(config: &mut CodecConfig, pt: u8, clock_rate: Frequency) -> Result<(), AllocError>
    ensures { OnOk result (config.new ≡ with_row (events_row pt clock_rate) config.old) }
{
    let events = FormatParams {
        telephone_event_max: Some(15),
        ..FormatParams::default()
    };
    config.add_config(Pt::from(pt), None, Codec::Tele, clock_rate, None, events)
}

/// The rows of an end that talks to browsers: those by default, then G.711, G.722 and comfort noise under their static
/// types (RFC 3551 6), and telephone events at 8,000 and 48,000 Hz under the types 126 and 110 (RFC 4733 2.4).
///
/// # Errors
///
/// `AllocError` if memory runs out.
pub fn rows_for_browsers(alloc: Global) -> Result<CodecConfig, AllocError>
    ensures { IfOk result (λ config. config ≡ record { rows = browser_rows; distances = [] }) }
{
    let mut config = CodecConfig::new_with_defaults(alloc)?;
    let (slow, fast) = (Frequency::EIGHT_KHZ, Frequency::FORTY_EIGHT_KHZ);
    add_plain(&mut config, 0, Codec::PCMU, slow)?;
    add_plain(&mut config, 8, Codec::PCMA, slow)?;
    add_plain(&mut config, 9, Codec::G722, Frequency::SIXTEEN_KHZ)?;
    add_plain(&mut config, 13, Codec::CN, slow)?;
    add_events(&mut config, 126, slow)?;
    add_events(&mut config, 110, fast)?;
    Ok(config)
}

/// The header extensions of an end that talks to browsers: audio level, absolute send time, transport-wide sequence
/// number, mid, rid, repaired rid and video orientation. With rid and repaired rid Chromium can offer simulcast twice.
pub fn map_for_browsers() -> ExtensionMap
    ensures { result ≡ standard_map }
{
    ExtensionMap::standard()
}
