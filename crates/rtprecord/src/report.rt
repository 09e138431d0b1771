//! The list of the streams, and of what came of their files.

use crate::outcomes::{Files, MkvFile, StreamFile};
use crate::passed::PassedFragments;
use crate::recorder::Recorder;
use crate::seen::Seen;
use crate::source::Source;
use crate::stream::Stream;
use crate::writing::Written;
use std::io;

/// How many milliseconds lie between the first unit and the last.
fn duration(stream: &Stream) -> u64 {
    let Some(first) = stream.units.first else {
        return 0;
    };
    let ticks = stream.units.last.wrapping_sub(first) as u64;
    ticks.saturating_mul(1000) / stream.row.rate.get() as u64
}

/// Prints what came of an SSRC.
fn print_source(rt: &HostRuntime, source: &Source) -> io::Result<()> {
    let (ssrc, lost) = (source.ssrc.get(), source.lost());
    print!(*rt; "SSRC {ssrc:08x}")?;
    if let Some(port) = source.port {
        print!(*rt; " to port {port}")?;
    }
    println!(*rt;
        ": {} taken, {} of them repairs, {lost} lost, {} late, {} damaged, {} of padding alone",
        source.taken, source.repaired, source.late, source.damaged, source.padding
    )
}

/// Prints what came of a stream.
fn print_counts(rt: &HostRuntime, stream: &Stream) -> io::Result<()> {
    let (row, units) = (stream.row, stream.units.count);
    println!(*rt;
        "  type {} {}/{}: {} datagrams, {units} units, {} keyframes, {} unreadable, {} ms",
        row.pt,
        row.codec,
        row.rate.get(),
        stream.datagrams,
        stream.keyframes,
        stream.faults,
        duration(stream)
    )
}

/// Prints when the packets of a stream came, if the capture says it.
fn print_times(rt: &HostRuntime, stream: &Stream) -> io::Result<()> {
    let (Some((first, _)), Some(last)) = (stream.began, stream.ended) else {
        return Ok(());
    };
    println!(*rt;
        "    from {}.{:06} to {}.{:06} s by the capture's clock",
        first / 1_000_000,
        first % 1_000_000,
        last / 1_000_000,
        last % 1_000_000
    )
}

/// Prints what came of a stream's file.
fn print_file(rt: &HostRuntime, stream: &Stream, sets: usize) -> io::Result<()> {
    if sets > 0 && stream.file.is_named() {
        println!(*rt; "    it begins with {sets} parameter sets of a session text")?;
    }
    match &stream.file {
        StreamFile::NotAsked => Ok(()),
        StreamFile::Unknown => println!(*rt; "    no file: none is known for this codec"),
        StreamFile::Written(name, written) => {
            print!(*rt; "    ")?;
            print_written(rt, name.as_str(), written)
        }
        StreamFile::Failed(name, why) => println!(*rt; "    no file {name}: {why}"),
    }
}

/// Prints how long a file is, and its sum if that was asked for.
fn print_written(rt: &HostRuntime, name: &str, written: &Written) -> io::Result<()> {
    let len = written.len;
    match &written.sum {
        Some(sum) => println!(*rt; "{name}: {len} bytes, SHA-256 {sum}"),
        None => println!(*rt; "{name}: {len} bytes"),
    }
}

/// Prints what came of a stream.
fn print_stream(rt: &HostRuntime, stream: &Stream, sets: usize) -> io::Result<()> {
    print_counts(rt, stream)?;
    print_times(rt, stream)?;
    if stream.given_up > 0 {
        println!(*rt;
            "    packets that waited had too many bytes, and the oldest were given up: {} times",
            stream.given_up
        )?;
    }
    if stream.is_cut {
        println!(*rt; "    memory ran out, and later units are left out")?;
    }
    if stream.is_encrypted {
        return println!(*rt; "    no file: its payloads are encrypted");
    }
    print_file(rt, stream, sets)
}

/// Prints what came of the Matroska file, if it was asked for.
fn print_mkv(rt: &HostRuntime, mkv: &MkvFile) -> io::Result<()> {
    match mkv {
        MkvFile::NotAsked => Ok(()),
        MkvFile::Written(name, file) => {
            print_written(rt, name.as_str(), &file.written)?;
            print_left_out(rt, &file.left_out)
        }
        MkvFile::Failed(name, why) => println!(*rt; "no file {name}: {why}"),
    }
}

/// Prints which streams have no track.
fn print_left_out(rt: &HostRuntime, left_out: &[u32]) -> io::Result<()> {
    for ssrc in left_out {
        println!(*rt;
            "  without SSRC {ssrc:08x}: its codec has no track, or its units lack what a track needs"
        )?;
    }
    Ok(())
}

/// Prints streams that are seen without a row.
fn print_seen(rt: &HostRuntime, seen: &[Seen]) -> io::Result<()> {
    for one in seen {
        let (ssrc, pt, datagrams) = (one.ssrc, one.pt, one.datagrams);
        print!(*rt; "SSRC {ssrc:08x}")?;
        if let Some(port) = one.port {
            print!(*rt; " to port {port}")?;
        }
        println!(*rt; ": {datagrams} datagrams of type {pt}, which no row says")?;
    }
    Ok(())
}

/// Prints which fragments no datagram came of.
fn print_fragments(rt: &HostRuntime, fragments: PassedFragments) -> io::Result<()> {
    println!(*rt;
        "fragments passed over: {} without others, {} repeated, {} overlapping, {} cut",
        fragments.alone, fragments.repeated, fragments.overlapping, fragments.unreadable
    )
}

/// Prints what was passed over.
fn print_passed(rt: &HostRuntime, recorder: &Recorder) -> io::Result<()> {
    let p = recorder.passed;
    let fragments = p.fragments.all();
    println!(*rt;
        "packets passed over: {} without UDP, {fragments} fragments, {} cut, {} malformed",
        p.not_udp, p.cut, p.malformed
    )?;
    if fragments > 0 {
        print_fragments(rt, p.fragments)?;
    }
    println!(*rt;
        "datagrams passed over: {} STUN, {} DTLS, {} RTCP, {} of types without a row, {} others",
        p.stun, p.dtls, p.rtcp, p.unknown, p.other
    )?;
    if p.relayed > 0 {
        println!(*rt; "datagrams that TURN relays: {}", p.relayed)?;
    }
    if p.elsewhere > 0 {
        println!(*rt; "datagrams of other ports: {}", p.elsewhere)?;
    }
    if p.empty_repairs > 0 || p.strange_repairs > 0 {
        let (empty, strange) = (p.empty_repairs, p.strange_repairs);
        println!(*rt; "repairs passed over: {empty} of padding, {strange} of no known stream")?;
    }
    if p.too_many > 0 {
        println!(*rt;
            "datagrams of more streams than are recorded: {}",
            p.too_many
        )?;
    }
    if recorder.unread > 0 {
        println!(*rt;
            "a capture ends within a packet: {} bytes are left",
            recorder.unread
        )?;
    }
    Ok(())
}

/// Whether nearly everything is unreadable, as encrypted media is.
fn is_unreadable(recorder: &Recorder) -> bool {
    let (mut bad, mut all) = (0u64, 0u64);
    for source in recorder.sources.values() {
        bad = bad.saturating_add(source.damaged);
        all = all.saturating_add(source.taken);
    }
    for stream in recorder.streams.values() {
        bad = bad.saturating_add(stream.faults);
    }
    all > 0 && bad.saturating_mul(10) >= all.saturating_mul(9)
}

/// Says which streams are encrypted, or that nearly nothing can be read.
fn tell_unreadable(rt: &HostRuntime, recorder: &Recorder) -> io::Result<()> {
    let is_encrypted = |stream: &&Stream| stream.is_encrypted;
    let encrypted = recorder.streams.values().filter(is_encrypted).count();
    if encrypted > 0 {
        return eprintln!(*rt;
            "rtprecord: encrypted streams, of which no file is written: {encrypted}"
        );
    }
    if is_unreadable(recorder) {
        return eprintln!(*rt;
            "rtprecord: nearly nothing can be read: it may be encrypted, or of other codecs than said"
        );
    }
    Ok(())
}

/// Prints each source and its streams, what came of their files, and what was passed over.
pub(crate) fn print(rt: &HostRuntime, recorder: &Recorder, files: &Files) -> io::Result<()> {
    for source in recorder.sources.values() {
        print_source(rt, source)?;
        for (number, _) in &source.streams {
            if let Some(stream) = recorder.streams.get(number) {
                print_stream(rt, stream, recorder.rows.sets.before(stream).len())?;
            }
        }
    }
    print_mkv(rt, &files.mkv)?;
    print_seen(rt, &recorder.seen)?;
    print_passed(rt, recorder)?;
    if files.shortened > 0 {
        println!(*rt;
            "gaps of sound that are filled in part: {}",
            files.shortened
        )?;
    }
    tell_unreadable(rt, recorder)
}
