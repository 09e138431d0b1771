//! Datagrams on lines that are sent on. Uses the crates `anyhow`, `hex` and `rtp_media`, and the module `forwarder`
//! beside it.

use crate::forwarder::Forwarder;
use rtp_media::End;
use std::io;

/// Sends the datagrams of standard input on, and prints those that are sent.
pub(crate) fn forward_lines(rt: &HostRuntime) -> anyhow::Result<()> {
    let alloc = rt.alloc();
    let text = io::read_to_string(alloc, rt.reader())?;
    let mut forwarder = Forwarder::new(End::fixed(alloc)?, End::fixed(alloc)?)?;
    for line in text.as_str().lines() {
        forward_line(rt, &mut forwarder, line)?;
    }
    Ok(())
}

/// Takes the datagram of a line in, and prints those that are sent on.
fn forward_line(rt: &HostRuntime, forwarder: &mut Forwarder, line: &str) -> anyhow::Result<()> {
    let alloc = rt.alloc();
    let datagram = hex::decode(alloc, line)?;
    for sent in &forwarder.forward(alloc, &datagram)? {
        println!(*rt; "{}", hex::encode(alloc, sent.as_slice())?)?;
    }
    Ok(())
}
