//! The arguments.

use clap::{Arg, ArgAction, ArgMatches, Command};
use payload_core::{MIN_HELD, is_valid_capacity};
use std::alloc::{AllocError, Global};

// The version of the program, which is that of the release.
const VERSION: &str = "0.10.0";

// How many complete frames wait for a missing one, if the arguments don't say it.
const HOLD_BACK: usize = 1023;

// How many seconds of a gap are filled, and how many of all gaps, if the arguments don't say it.
const LONGEST_GAP: usize = 60;

const MOST_SILENCE: usize = 3600;

// How many streams are recorded, if the arguments don't say it.
const MOST_STREAMS: usize = 256;

/// What the arguments say.
#[derive(Drop)]
pub(crate) struct Arguments {
    /// The names of the captures, in the order of their times.
    pub(crate) captures: Vec<String>,
    /// The SDP files, each offer before its answer.
    pub(crate) texts: Vec<String>,
    /// Rows, each `TYPE=CODEC/RATE` or `PORT:TYPE=CODEC/RATE`.
    pub(crate) rows: Vec<String>,
    /// Types of repairs, each `TYPE=REPAIRED`.
    pub(crate) repairs: Vec<String>,
    /// The ports from or to which datagrams are taken; all if there are none.
    pub(crate) ports: Vec<u16>,
    /// How many complete frames wait for a missing one.
    pub(crate) hold_back: usize,
    /// How many packets wait at most.
    pub(crate) held: usize,
    /// How many seconds of a gap are filled.
    pub(crate) longest_gap: usize,
    /// How many seconds of all gaps are filled.
    pub(crate) most_silence: usize,
    /// How many streams are recorded.
    pub(crate) most_streams: usize,
    /// The folder of the files.
    pub(crate) out: String,
    /// The name of one file of all streams, if it is asked for.
    pub(crate) mkv: Option<String>,
    /// Whether files that exist are replaced.
    pub(crate) is_forced: bool,
    /// Whether a file's SHA-256 is told.
    pub(crate) has_sums: bool,
    /// Whether the streams are only listed, and no file is written.
    pub(crate) is_list: bool,
}

/// An option, by its name.
fn option<'a>(alloc: Global, name: &'a str, action: ArgAction, help: &'a str) -> Arg<'a> {
    Arg::new(alloc, name).long(name).action(action).help(help)
}

/// The options that say what the datagrams are.
fn with_kinds<'a>(alloc: Global, command: Command<'a>) -> Result<Command<'a>, AllocError> {
    let texts = "a session text (SDP) that says the payload types; an answer after its offer";
    let rows =
        "a payload type, as 96=VP8/90000 or 111=opus/48000/2; as 5004:96=VP8/90000 on one port";
    let repairs = "a type of retransmissions and the type that they repair, as 97=96";
    let ports = "takes the datagrams from or to this UDP port alone";
    command
        .arg(option(alloc, "sdp", ArgAction::Append, texts))?
        .arg(option(alloc, "pt", ArgAction::Append, rows))?
        .arg(option(alloc, "rtx", ArgAction::Append, repairs))?
        .arg(option(alloc, "port", ArgAction::Append, ports))
}

/// The options that bound what is held and written.
fn with_bounds<'a>(alloc: Global, command: Command<'a>) -> Result<Command<'a>, AllocError> {
    let hold_back = "how many complete frames wait for a missing one, 1023 if not given";
    let held = "how many packets wait at most, 4096 to 16384, 4096 if not given";
    let gap = "how many seconds of a gap in sound become silence, 60 if not given";
    let silence = "how many seconds of all gaps become silence, 3600 if not given";
    let streams = "how many streams are recorded, 256 if not given";
    command
        .arg(option(alloc, "hold-back", ArgAction::Set, hold_back))?
        .arg(option(alloc, "held", ArgAction::Set, held))?
        .arg(option(alloc, "longest-gap", ArgAction::Set, gap))?
        .arg(option(alloc, "most-silence", ArgAction::Set, silence))?
        .arg(option(alloc, "most-streams", ArgAction::Set, streams))
}

/// The command line.
pub(crate) fn command<'a>(alloc: Global) -> Result<Command<'a>, AllocError> {
    let captures =
        "files of pcap, pcapng or rtpdump, or lines of hexadecimal, in the order of their times";
    let capture = Arg::new(alloc, "CAPTURE")
        .required(true)
        .num_args(1..)
        .action(ArgAction::Append)
        .help(captures);
    let out = "the folder that the files are written to, the current one if not given";
    let mkv = "writes all streams to one Matroska file of this name too";
    let force = "replaces files that exist";
    let sums = "tells the SHA-256 of each file";
    let list = "lists the streams, and writes no file";
    let command = Command::new(alloc, "rtprecord")
        .version(VERSION)
        .about("Records the streams of a capture, each to a file that a player opens")
        .arg(capture)?;
    with_bounds(alloc, with_kinds(alloc, command)?)?
        .arg(option(alloc, "out", ArgAction::Set, out))?
        .arg(option(alloc, "mkv", ArgAction::Set, mkv))?
        .arg(option(alloc, "force", ArgAction::SetTrue, force))?
        .arg(option(alloc, "sums", ArgAction::SetTrue, sums))?
        .arg(option(alloc, "list", ArgAction::SetTrue, list))
}

/// The values of an argument.
fn values(alloc: Global, matches: &ArgMatches<'_>, id: &str) -> Result<Vec<String>, AllocError> {
    let mut list = Vec::new(alloc);
    if let Some(words) = matches.get_strs(id) {
        for word in words {
            list.push(String::from_str(alloc, word)?)?;
        }
    }
    Ok(list)
}

/// The ports that the arguments name; None if one is no number of a port.
fn ports_of(alloc: Global, matches: &ArgMatches<'_>) -> Result<Option<Vec<u16>>, AllocError> {
    let mut list = Vec::new(alloc);
    if let Some(words) = matches.get_strs("port") {
        for word in words {
            let Ok(port) = word.parse::<u16>() else {
                return Ok(None);
            };
            list.push(port)?;
        }
    }
    Ok(Some(list))
}

/// The number that an argument gives, or a default; None if it isn't a number.
fn number_of(matches: &ArgMatches<'_>, id: &str, otherwise: usize) -> Option<usize> {
    match matches.get_str(id) {
        Some(number) => number.parse::<usize>().ok(),
        None => Some(otherwise),
    }
}

/// How much is held and written.
#[derive(Clone, Copy)]
struct Bounds {
    hold_back: usize,
    held: usize,
    longest_gap: usize,
    most_silence: usize,
    most_streams: usize,
}

impl Bounds {
    /// The bounds; or the name and the kind of the first that isn't what it has to be.
    fn of(matches: &ArgMatches<'_>) -> Result<Bounds, &'static str> {
        let Some(hold_back) = number_of(matches, "hold-back", HOLD_BACK) else {
            return Err("--hold-back takes a number of frames");
        };
        let Some(held) = number_of(matches, "held", MIN_HELD) else {
            return Err("--held takes 4096 to 16384 packets");
        };
        if !is_valid_capacity(held) {
            return Err("--held takes 4096 to 16384 packets");
        }
        let Some(longest_gap) = number_of(matches, "longest-gap", LONGEST_GAP) else {
            return Err("--longest-gap takes a number of seconds");
        };
        let Some(most_silence) = number_of(matches, "most-silence", MOST_SILENCE) else {
            return Err("--most-silence takes a number of seconds");
        };
        let Some(most_streams) = number_of(matches, "most-streams", MOST_STREAMS) else {
            return Err("--most-streams takes a number of streams");
        };
        Ok(Bounds {
            hold_back,
            held,
            longest_gap,
            most_silence,
            most_streams,
        })
    }
}

impl Arguments {
    /// The names of all that is read.
    pub(crate) fn inputs(&self, alloc: Global) -> Result<Vec<&str>, AllocError> {
        let mut names = Vec::new(alloc);
        for name in self.captures.iter().chain(self.texts.iter()) {
            names.push(name.as_str())?;
        }
        Ok(names)
    }

    /// The parsed arguments; or what is wrong with one.
    pub(crate) fn of(
        alloc: Global,
        matches: &ArgMatches<'_>,
    ) -> Result<Result<Arguments, &'static str>, AllocError> {
        let bounds = match Bounds::of(matches) {
            Ok(bounds) => bounds,
            Err(wrong) => return Ok(Err(wrong)),
        };
        let Some(ports) = ports_of(alloc, matches)? else {
            return Ok(Err("--port takes the number of a UDP port"));
        };
        Ok(Ok(Arguments {
            captures: values(alloc, matches, "CAPTURE")?,
            texts: values(alloc, matches, "sdp")?,
            rows: values(alloc, matches, "pt")?,
            repairs: values(alloc, matches, "rtx")?,
            ports,
            hold_back: bounds.hold_back,
            held: bounds.held,
            longest_gap: bounds.longest_gap,
            most_silence: bounds.most_silence,
            most_streams: bounds.most_streams,
            out: String::from_str(alloc, matches.get_str("out").unwrap_or("."))?,
            mkv: match matches.get_str("mkv") {
                Some(name) => Some(String::from_str(alloc, name)?),
                None => None,
            },
            is_forced: matches.get_flag("force"),
            has_sums: matches.get_flag("sums"),
            is_list: matches.get_flag("list"),
        }))
    }
}
