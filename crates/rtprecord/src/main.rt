//! Records the streams of captures: `rtprecord CAPTURE.. [OPTION]..`. A capture is a file of pcap, pcapng or rtpdump,
//! or lines of hexadecimal; several are parts of one, in the order of their times. Each stream, an SSRC and a payload
//! type, is listed, and written to a file that a player opens, named by both.
//!
//! The status is 0 if a stream was found; 1 if a capture or a session text can't be read, a file can't be written, or
//! memory ran out; 2 if the arguments are wrong; 3 if no stream was found, or one is encrypted.
#![tactic(auto)]

mod arguments;
mod av1;
mod bits;
mod clocks;
mod files;
mod found;
mod fragments;
mod gaps;
mod heads;
mod hevc;
mod input;
mod layers;
mod matroska;
mod outcomes;
mod passed;
mod places;
mod progress;
mod reading;
mod recorder;
mod repairs;
mod report;
mod reports;
mod row;
mod rows;
mod secrecy;
mod sections;
mod seen;
mod session_sets;
mod sets;
mod sizes;
mod source;
mod stream;
mod tracks;
mod typed;
mod units;
mod writing;

use anyhow::bail;
use arguments::{Arguments, command};
use outcomes::write_files;
use reading::read;
use recorder::{Limits, Recorder};
use rows::{no_row, rows_of};
use std::process::ExitCode;
use std::{env, fs};

fn main(rt: HostRuntime) -> ExitCode {
    match run(&rt) {
        Ok(status) => ExitCode::from(status),
        Err(fault) => {
            let _ = eprintln!(rt; "rtprecord: {fault:#}");
            ExitCode::from(1)
        }
    }
}

/// Reads the arguments, and records what they say.
fn run(rt: &HostRuntime) -> anyhow::Result<u8> {
    let words = env::args(rt)?.collect::<Vec<String>>(rt.alloc())?;
    let mut names = Vec::new(rt.alloc());
    for word in &words {
        names.push(word.as_str())?;
    }
    run_with(rt, names.as_slice())
}

/// Records what these words say.
fn run_with(rt: &HostRuntime, words: &[&str]) -> anyhow::Result<u8> {
    let matches = match command(rt.alloc())?.try_get_matches_from(words) {
        Ok(matches) => matches,
        Err(fault) => return tell(rt, &fault),
    };
    let arguments = match Arguments::of(rt.alloc(), &matches)? {
        Ok(arguments) => arguments,
        Err(wrong) => {
            eprintln!(*rt; "rtprecord: {wrong}")?;
            return Ok(2);
        }
    };
    if let Some(text) = no_row(&arguments) {
        eprintln!(*rt;
            "rtprecord: no payload type: {text}; write it as 96=VP8/90000, a repair's as 97=96"
        )?;
        return Ok(2);
    }
    record(rt, arguments)
}

/// Tells what is wrong with the arguments; or the help or the version, if one is asked for.
fn tell(rt: &HostRuntime, fault: &clap::Error) -> anyhow::Result<u8> {
    if fault.use_stderr() {
        eprintln!(*rt; "{fault}")?;
    } else {
        println!(*rt; "{fault}")?;
    }
    Ok(if fault.exit_code() == 0 { 0 } else { 2 })
}

/// Records the streams of the captures.
fn record(rt: &HostRuntime, arguments: Arguments) -> anyhow::Result<u8> {
    let rows = rows_of(rt, &arguments)?;
    let limits = Limits {
        hold_back: arguments.hold_back,
        held: arguments.held,
        most_streams: arguments.most_streams,
        is_kept: !arguments.is_list,
    };
    let (ports, folder) = (arguments.ports.clone()?, arguments.out.clone()?);
    let mut recorder = Recorder::new(rt.alloc(), rows, limits, ports, folder);
    if !arguments.is_list {
        fs::create_dir_all(rt, arguments.out.as_str())?;
    }
    let status = record_with(rt, &arguments, &mut recorder);
    recorder.remove_units(rt);
    status
}

/// Records the streams of the captures with a new recorder.
fn record_with(
    rt: &HostRuntime,
    arguments: &Arguments,
    recorder: &mut Recorder,
) -> anyhow::Result<u8> {
    for name in &arguments.captures {
        if let Err(fault) = read(rt, name.as_str(), recorder) {
            bail!("{name}: {fault}")
        }
    }
    recorder.finish();
    let files = write_files(rt, recorder, arguments)?;
    report::print(rt, recorder, &files)?;
    if !files.are_whole {
        return Ok(1);
    }
    if recorder.streams.values().any(|stream| stream.is_encrypted) {
        return Ok(3);
    }
    let is_found = !recorder.streams.is_empty() || (arguments.is_list && !recorder.seen.is_empty());
    Ok(if is_found { 0 } else { 3 })
}
