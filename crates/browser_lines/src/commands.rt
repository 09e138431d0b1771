//! The commands.

use crate::call::{Call, CallError};
use crate::identity::{add_track, identity};
use crate::remote::put_remote;
use crate::requests::{named_requests, requests, sections};
use crate::streams::{put_agreed, put_receiver, put_sender};
use crate::texts::put_result;
use crate::transport::Own;
use rtp_media_browsers::{for_end, requests_for};
use rtp_wire::Mid;
use sdp_formats_values::Setup;
use std::fs;
use words_and_replies::{ReplyText, parted};

/// Answers a line: echoes the line, followed by the command's result.
pub(crate) fn answer(
    rt: &HostRuntime,
    call: &mut Call,
    line: &str,
    reply: &mut ReplyText,
) -> anyhow::Result<()> {
    let alloc = rt.alloc();
    reply.put(line);
    let (command, rest) = parted(line);
    let (name, words) = parted(rest);
    match command {
        "" | "#" => {}
        "end" => *call = Call::new(alloc, name.parse::<u64>()?, words == "red")?,
        "own" => put_result(call.offer(sections(alloc, rest)?), reply),
        "stop" => call.state.stop(alloc, Mid::from(name))?,
        "identity" => call.state.identity = Some(identity(alloc, name, words)?),
        "track" => add_track(alloc, &mut call.state, name, words)?,
        "withdraw" => reply.put(if call.end.withdraw() { ": yes" } else { ": no" }),
        "agreed" => put_agreed(&call.end, reply),
        "sender" => put_sender(&mut call.end, name, words, reply)?,
        "receiver" => put_receiver(&mut call.end, name, words, reply)?,
        "remote" => put_remote(&call.state.remote, reply),
        "creds" => call.own = Own::of(alloc, name, words)?,
        "candidate" => {
            if !call.own.add_candidate(alloc, rest)? {
                reply.fault();
            }
        }
        "lite" => call.own.is_lite = true,
        "setup" => {
            call.own.setup = match name {
                "active" => Setup::Active,
                "passive" => Setup::Passive,
                _ => Setup::ActPass,
            }
        }
        _ => {
            let text = fs::read_to_string(rt, name)?;
            put_of_text(rt, call, command, (words, text.as_str()), reply)?;
        }
    }
    Ok(())
}

/// Answers a command on a text.
fn put_of_text(
    rt: &HostRuntime,
    call: &mut Call,
    command: &str,
    (words, text): (&str, &str),
    reply: &mut ReplyText,
) -> anyhow::Result<()> {
    let alloc = rt.alloc();
    match command {
        "handed" => {
            let mut state = call.state.clone(alloc)?;
            let requests = requests(alloc, words)?;
            let handed = for_end(alloc, &mut state, text, requests.as_slice());
            put_result(handed.map_err(CallError::Browser), reply);
        }
        "offer" => put_result(call.answer(text, requests(alloc, words)?), reply),
        "ask" => match requests_for(alloc, text, named_requests(alloc, words)?) {
            Ok(requests) => put_result(call.answer(text, requests), reply),
            Err(error) => put_result(Err(CallError::SectionRequest(error)), reply),
        },
        "answer" => put_result(call.accept(text), reply),
        _ => reply.fault(),
    }
    Ok(())
}
