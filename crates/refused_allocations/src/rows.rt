//! Rounds of rows, and a row as JSON.

use crate::asking::{TIMES, print_refused};
use sdp_formats::{
    Codec, CodecConfig, CodecSpec, Direction, FormatParams, Frequency, PayloadParams, Pt,
    RoundError,
};
use std::alloc::{AllocError, Global};

fn opus(pt: u8) -> PayloadParams {
    let spec = CodecSpec {
        codec: Codec::Opus,
        clock_rate: Frequency::FORTY_EIGHT_KHZ,
        channels: Some(2),
        format: FormatParams::parse_line("minptime=10;useinbandfec=1"),
    };
    PayloadParams::new(Pt::from(pt), None, spec)
}

fn h264() -> PayloadParams {
    let spec = CodecSpec {
        codec: Codec::H264,
        clock_rate: Frequency::NINETY_KHZ,
        channels: None,
        format: FormatParams::parse_line("packetization-mode=1;profile-level-id=42e01f"),
    };
    let mut row = PayloadParams::new(Pt::from(108), Some(Pt::from(109)), spec);
    row.lock();
    row
}

/// The rows of worked row 19: H.264 locked at 108 and 109, and Opus at 111.
fn own_rows(alloc: Global) -> Result<CodecConfig, AllocError> {
    let mut config = CodecConfig::empty(alloc);
    config.push(h264())?;
    config.push(opus(111))?;
    Ok(config)
}

/// The round of worked row 19 against Opus at 109, if the other end dictates the type and where it only sends, on
/// the same rows: the first is refused and changes nothing.
pub(crate) fn print_rounds(rt: &HostRuntime) -> Option<()> {
    let mut own = built_rows(rt)?;
    print_round(rt, &mut own, Direction::SendRecv)?;
    print_round(rt, &mut own, Direction::SendOnly)
}

fn built_rows(rt: &HostRuntime) -> Option<CodecConfig> {
    for _ in 0..TIMES {
        match own_rows(rt.alloc()) {
            Ok(own) => return Some(own),
            Err(_) => print_refused(rt),
        }
    }
    None
}

fn print_round(rt: &HostRuntime, own: &mut CodecConfig, dir: Direction) -> Option<()> {
    let remote = [opus(109)];
    for _ in 0..TIMES {
        match own.round(&remote, dir) {
            Err(RoundError::Memory) => print_refused(rt),
            Err(refusal) => {
                let _ = println!(*rt; "round {dir}: {refusal}");
                return Some(print_rows(rt, own));
            }
            Ok(()) => {
                let _ = println!(*rt; "round {dir}: ok");
                return Some(print_rows(rt, own));
            }
        }
        print_rows(rt, own);
    }
    None
}

/// The rows as they are, on one line: also after a refusal, which changes none.
fn print_rows(rt: &HostRuntime, own: &CodecConfig) {
    let _ = print!(*rt; "rows");
    for row in own.params() {
        let (pt, codec, locked) = (row.pt(), row.spec().codec, row.is_locked());
        let _ = print!(*rt; " {pt} {codec} {locked}");
    }
    let _ = println!(*rt; "");
}

/// A row in JSON, and read back.
pub(crate) fn print_json(rt: &HostRuntime) -> Option<()> {
    let row = opus(111).with_red(Pt::from(63));
    let text = json_of(rt, &row)?;
    let _ = println!(*rt; "{text}");
    for _ in 0..TIMES {
        match serde_json::from_str::<PayloadParams>(rt.alloc(), text.as_str()) {
            Ok(again) => {
                let same = again == row;
                let _ = println!(*rt; "read back as it is: {same}");
                return Some(());
            }
            Err(error) if error.is_memory() => print_refused(rt),
            Err(_) => return None,
        }
    }
    None
}

fn json_of(rt: &HostRuntime, row: &PayloadParams) -> Option<String> {
    for _ in 0..TIMES {
        match serde_json::to_string(rt.alloc(), row) {
            Ok(text) => return Some(text),
            Err(_) => print_refused(rt),
        }
    }
    None
}
