//! A session text that is read, and the rows of its sections.

use crate::asking::{TIMES, print_refused};
use sdp_formats::{MediaLine, RtpParams, SdpError, SdpOffer};

/// The offer of worked row 16.
const OFFER: &str =
    "v=0\r\no=str0m-0.25.0 1 2 IN IP4 0.0.0.0\r\ns=-\r\nt=0 0\r\na=group:BUNDLE 0\r\n\
     m=video 9 UDP/TLS/RTP/SAVPF 96\r\nc=IN IP4 0.0.0.0\r\na=mid:0\r\na=sendrecv\r\n\
     a=rtpmap:96 VP8/90000\r\na=rtcp-fb:96 transport-cc\r\na=rtcp-fb:96 goog-remb\r\n\
     a=rtcp-fb:96 ccm fir\r\na=rtcp-fb:96 nack\r\na=rtcp-fb:96 nack pli\r\na=ssrc:44 cname:str0m\r\n";

/// What is read of the offer, and the rows of its sections.
pub(crate) fn print_offer(rt: &HostRuntime) -> Option<()> {
    let offer = offer(rt)?;
    for section in offer.media_lines.iter() {
        let _ = println!(*rt; "section {} {}", section.typ, section.direction());
        print_rows(rt, section)?;
    }
    Some(())
}

fn offer(rt: &HostRuntime) -> Option<SdpOffer> {
    for _ in 0..TIMES {
        match SdpOffer::from_sdp_string(rt.alloc(), OFFER) {
            Ok(offer) => return Some(offer),
            Err(SdpError::Memory) => print_refused(rt),
            Err(_) => return None,
        }
    }
    None
}

fn print_rows(rt: &HostRuntime, section: &MediaLine) -> Option<()> {
    for _ in 0..TIMES {
        match section.rtp_params(rt.alloc()) {
            Ok(rows) => {
                for row in &rows {
                    let (pt, spec) = (row.pt(), row.spec());
                    let _ = println!(*rt; "row {pt} {} {}", spec.codec, spec.clock_rate);
                }
                return Some(());
            }
            Err(_) => print_refused(rt),
        }
    }
    None
}
