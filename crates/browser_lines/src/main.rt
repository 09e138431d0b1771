//! Answers commands about browsers' SDP files, one line of standard input at a time: what an end is
//! given of them, and what the browser gets. Its data: offers and answers of Chromium 156 and
//! Firefox 153 ESR, texts modelled on the examples of RFC 8829, and texts that are refused.
#![tactic(auto)]

mod call;
mod commands;
mod identity;
mod remote;
mod requests;
mod streams;
mod texts;
mod transport;

use call::Call;
use commands::answer;
use std::io;
use words_and_replies::ReplyText;

/// Answers each line by one or several: a comment by itself, and a command by what it gives.
fn main(rt: HostRuntime) -> anyhow::Result<()> {
    let alloc = rt.alloc();
    let mut call = Call::new(alloc, 1, false)?;
    let text = io::read_to_string(alloc, rt.reader())?;
    for line in text.as_str().lines() {
        let mut reply = ReplyText::new(alloc);
        answer(&rt, &mut call, line, &mut reply)?;
        let shown = reply.finish()?;
        println!(rt; "{shown}")?;
    }
    Ok(())
}
