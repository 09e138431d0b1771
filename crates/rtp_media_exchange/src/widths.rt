//! Values that are in the range of their types.

ghost use Rattle.std.specs.Prelude.{◌<◌, ◌^◌, IfSome};
ghost use Rattle.rtp_media_exchange.specs.Answering.{HasWidths};
ghost use Rattle.rtp_media_sections.specs.PrintableSections.{IsLowPair};
ghost use Rattle.sdp_formats_rounds.specs.Members.{IsEach};
ghost use Rattle.sdp_formats_rounds.specs.Ranges.{IsSized};

use rtp_media_sections::SectionSpec;
use rtp_wire::Ssrc;
use sdp_formats_rows::PayloadParams;

fn pass_channels(channels: Option<u8>)
    ensures { IfSome channels (λ n. n < 2 ^ 8) }
{
    let _ = channels;
}

fn pass_row(row: &PayloadParams)
    ensures { IsSized row.now }
{
    let spec = row.spec();
    let _rate = spec.clock_rate.get();
    pass_channels(spec.channels);
}

/// Reads the clock rate and the channels of each row, so that their ranges are known.
pub(crate) fn pass_rows(rows: &[PayloadParams])
    ensures { IsEach IsSized rows.now }
{
    for row in rows {
        pass_row(row);
    }
}

fn pass_ssrc(ssrc: &Ssrc)
    ensures { ssrc.now < 2 ^ 32 }
{
    let _number = ssrc.get();
}

fn pass_ssrcs(ssrcs: &[Ssrc])
    ensures { IsEach (λ ssrc. ssrc < 2 ^ 32) ssrcs.now }
{
    for ssrc in ssrcs {
        pass_ssrc(ssrc);
    }
}

fn pass_pair(pair: &(Ssrc, Ssrc))
    ensures { IsLowPair pair.now }
{
    let _numbers = (pair.0.get(), pair.1.get());
}

fn pass_pairs(pairs: &[(Ssrc, Ssrc)])
    ensures { IsEach IsLowPair pairs.now }
{
    for pair in pairs {
        pass_pair(pair);
    }
}

fn pass_section(section: &SectionSpec)
    ensures { HasWidths section.now }
{
    let _name = section.mid.as_bytes();
    pass_ssrcs(section.ssrcs.as_slice());
    pass_pairs(section.repairs.as_slice());
}

/// Looks at the name, the SSRCs and the repairs of each section.
pub(crate) fn pass_sections(sections: &[SectionSpec])
    ensures { IsEach HasWidths sections.now }
{
    for section in sections {
        pass_section(section);
    }
}
