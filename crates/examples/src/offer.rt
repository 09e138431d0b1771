//! Offers read. Uses the crates `anyhow` and `sdp_formats`.

use sdp_formats::{MediaAttribute, MediaLine, RtpParams, SdpOffer};

/// Prints each section of an offer with its rows, the fingerprint, and how many candidates each section has.
pub(crate) fn print_offer(rt: &HostRuntime, text: &str) -> anyhow::Result<()> {
    let offer = SdpOffer::from_sdp_string(rt.alloc(), text)?;
    for section in offer.media_lines.iter() {
        println!(*rt; "{} {}", section.typ, section.direction())?;
        for row in &section.rtp_params(rt.alloc())? {
            let (pt, spec) = (row.pt(), row.spec());
            println!(*rt; "  type {pt}: {} {}", spec.codec, spec.clock_rate)?;
        }
    }
    if let Some(print) = offer.fingerprint() {
        println!(*rt; "fingerprint {print}")?;
    }
    for section in offer.media_lines.iter() {
        print_candidates(rt, section)?;
    }
    Ok(())
}

fn print_candidates(rt: &HostRuntime, section: &MediaLine) -> anyhow::Result<()> {
    let count = candidates(section);
    if let Some(mid) = section.mid() {
        println!(*rt; "section {mid}: {count} candidates")?;
    }
    Ok(())
}

/// How many candidates a section has.
fn candidates(section: &MediaLine) -> usize {
    let mut count = 0usize;
    for attribute in section.attrs.iter() {
        if matches!(attribute, MediaAttribute::Candidate(_)) {
            count = count.saturating_add(1);
        }
    }
    count
}
