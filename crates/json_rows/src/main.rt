//! Rows, and what they hold, in JSON by serde. Uses the crates `anyhow`, `media_types`, `rtp_wire`, `sdp_formats_rows`
//! and `serde_json`.
//!
//! Prints a row of each codec and one of which no field is as by default, then each profile, tier and level, a tuple of
//! what rows hold, and how long a list is, each with whether it is read back as it is; then reads the rows of standard
//! input, a line each, and prints each again, or why it is none.
#![tactic(auto)]

mod rows;
mod values;

use media_types::CODECS;
use rows::{every_field, is_same, row_of};
use sdp_formats_rows::PayloadParams;
use std::io;

fn main(rt: HostRuntime) -> anyhow::Result<()> {
    for codec in &CODECS {
        print_row(&rt, &row_of(*codec))?;
    }
    print_row(&rt, &every_field())?;
    values::print_tables(&rt)?;
    values::print_track(&rt)?;
    values::print_list(&rt)?;
    let text = io::read_to_string(rt.alloc(), rt.reader())?;
    for line in text.as_str().lines() {
        print_line(&rt, line)?;
    }
    Ok(())
}

/// Prints the row's JSON, and whether it is read back as it is, with its lock.
fn print_row(rt: &HostRuntime, row: &PayloadParams) -> anyhow::Result<()> {
    let text = serde_json::to_string(rt.alloc(), row)?;
    let again: PayloadParams = serde_json::from_str(rt.alloc(), text.as_str())?;
    let same = is_same(&again, row);
    let codec = again.spec().codec;
    Ok(println!(*rt; "{codec} {text}\n  read back as it is: {same}")?)
}

fn print_line(rt: &HostRuntime, line: &str) -> anyhow::Result<()> {
    match serde_json::from_str::<PayloadParams>(rt.alloc(), line) {
        Ok(row) => print_row(rt, &row),
        Err(error) => Ok(println!(*rt; "{line}\n  {error}")?),
    }
}

#[cfg(test)]
mod tests {
    use crate::rows::{is_same, row_of};
    use media_types::Codec;
    use sdp_formats_rows::PayloadParams;

    const OPUS: &str =
        "{\"pt\":111,\"resend\":null,\"spec\":{\"codec\":\"Opus\",\"clock_rate\":48000,\
        \"channels\":2,\"format\":{\"min_p_time\":10,\"stereo\":null,\"sprop_stereo\":null,\
        \"use_inband_fec\":true,\"use_dtx\":null,\"level_asymmetry_allowed\":null,\
        \"packetization_mode\":null,\"profile_level_id\":null,\"profile_id\":null,\"profile\":null,\
        \"level_idx\":null,\"tier\":null,\"h265_profile_tier_level\":null,\
        \"h266_profile_tier_level\":null,\"sprop_max_don_diff\":null,\"telephone_event_max\":null,\
        \"octet_align\":null,\"mode_set\":null}},\"fb_transport_cc\":true,\"fb_nack\":false,\
        \"fb_pli\":false,\"fb_fir\":false,\"fb_remb\":false,\"red\":63,\"locked\":false}";

    #[test]
    fn opus_row_comes_back(rt: HostRuntime) -> anyhow::Result<()> {
        let row: PayloadParams = serde_json::from_str(rt.alloc(), OPUS)?;
        assert!(rt; is_same(&row, &row_of(Codec::Opus)));
        let text = serde_json::to_string(rt.alloc(), &row)?;
        assert!(rt; text.as_str() == OPUS);
        Ok(())
    }
}
