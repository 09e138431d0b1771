//! Reports of senders, which tie the times of their packets to a wall clock.

/// What a sender report says of an SSRC (RFC 3550 6.4.1).
#[derive(Clone, Copy)]
pub(crate) struct SenderReport {
    pub(crate) ssrc: u32,
    /// The wall clock: seconds since 1900 in 32 bits, and their fraction in 32.
    pub(crate) ntp: u64,
    /// The same time, in ticks of the stream's clock.
    pub(crate) rtp_time: u32,
}

/// The number of four bytes at a place, if they are there.
fn number_at(bytes: &[u8], at: usize) -> Option<u32> {
    let bytes = bytes.get(at..at.checked_add(4)?)?;
    Some(u32::from_be_bytes([
        *bytes.get(0)?,
        *bytes.get(1)?,
        *bytes.get(2)?,
        *bytes.get(3)?,
    ]))
}

/// The sender report that a packet of RTCP begins with (RFC 3550 6.1 and 6.4.1).
pub(crate) fn sender_report(datagram: &[u8]) -> Option<SenderReport> {
    if *datagram.get(1)? != 200 {
        return None;
    }
    let high = number_at(datagram, 8)? as u64;
    let low = number_at(datagram, 12)? as u64;
    Some(SenderReport {
        ssrc: number_at(datagram, 4)?,
        ntp: high << 32 | low,
        rtp_time: number_at(datagram, 16)?,
    })
}
