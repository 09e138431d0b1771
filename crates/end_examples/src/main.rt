//! Code to copy, one module for each piece; its first lines name the crates it uses: two ends that
//! agree and one that sends to the other (`agreeing`, `sender`), and a forwarder of units
//! (`forwarder`). Standard input holds datagrams in hexadecimal, one a line; those with SSRC 44 and
//! payload type 111 are Opus, for the forwarder.
#![tactic(auto)]

mod agreeing;
mod forwarder;
mod forwarding;
mod sender;

/// Prints the result of each datagram that one end sends to the other, and then the forwarded
/// datagrams, renumbered, one a line.
fn main(rt: HostRuntime) -> anyhow::Result<()> {
    sender::send_and_hear(&rt)?;
    forwarding::forward_lines(&rt)
}
