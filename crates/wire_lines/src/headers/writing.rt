//! Headers that are written, and their extensions.

use rtp_wire::{
    AbsCaptureTime, Extension, ExtensionMap, ExtensionValues, Mid, Pt, Rid, RtpHeader, Ssrc,
    VideoOrientation,
};
use words_and_replies::{CommandLine, part};

/// `map NUMBER=NAME ..`: which number each header extension has from now on.
pub(crate) fn set_map(line: &mut CommandLine<'_>, map: &mut ExtensionMap) {
    map.clear();
    for word in line.rest().split_whitespace() {
        let (id, name) = part(word, '=');
        let id = line.value::<u8>(id);
        match extension_of(name) {
            _ if id < 1 || id > 16 => line.refuse("numbers of header extensions are 1 to 16"),
            Some(extension) => map.set(id, extension),
            None => line.refuse(format_args!("no header extension {name}")),
        }
    }
    line.put("ok")
}

fn extension_of(name: &str) -> Option<Extension> {
    Some(match name {
        "audio-level" => Extension::AudioLevel,
        "send-time" => Extension::AbsoluteSendTime,
        "transport" => Extension::TransportSequenceNumber,
        "mid" => Extension::RtpMid,
        "rid" => Extension::RtpStreamId,
        "repaired" => Extension::RepairedRtpStreamId,
        "orientation" => Extension::VideoOrientation,
        "delay" => Extension::PlayoutDelay,
        "content" => Extension::VideoContentType,
        "captured" => Extension::AbsoluteCaptureTime,
        _ => return None,
    })
}

/// `write-header type=33 number=47000 marker ..`: the bytes of the default header with the fields that words name.
pub(crate) fn written(line: &mut CommandLine<'_>, map: &ExtensionMap) {
    let mut header = RtpHeader::default();
    for word in line.rest().split_whitespace() {
        set_field(line, &mut header, word);
    }
    if header.payload_type.get() > 127 || header.csrc_count > 15 {
        return line.refuse("a type above 127, or more than 15 sources");
    }
    match vec![in line.alloc(); 0; header.wire_len(map)] {
        Ok(mut bytes) => {
            let _len = header.write_to(&mut bytes, map);
            line.put_bytes(&bytes);
        }
        Err(fault) => line.refuse(fault),
    }
}

fn set_field(line: &mut CommandLine<'_>, header: &mut RtpHeader, word: &str) {
    let (name, value) = part(word, '=');
    match name {
        "type" => header.payload_type = Pt::from(line.value::<u8>(value)),
        "number" => header.sequence_number = line.value(value),
        "time" => header.timestamp = line.value(value),
        "ssrc" => header.ssrc = Ssrc::from(line.value::<u32>(value)),
        // One that has no place is counted, so that the header isn't written.
        "csrc" => {
            let source = line.value(value);
            if header.csrc_count < 15 {
                header.csrc[header.csrc_count] = source;
            }
            header.csrc_count = header.csrc_count.saturating_add(1);
        }
        "marker" => header.marker = true,
        "padding" => header.has_padding = true,
        "bare" => header.has_extension = false,
        _ => set_value(line, &mut header.ext_vals, name, value),
    }
}

fn set_value(line: &mut CommandLine<'_>, values: &mut ExtensionValues, name: &str, value: &str) {
    match name {
        "audio-level" => values.audio_level = Some(line.value(value)),
        "voice" => values.voice_activity = Some(line.value(value)),
        "send-time" => values.abs_send_time = Some(line.value(value)),
        "transport" => values.transport_cc = Some(line.value(value)),
        "delay-min" => values.play_delay_min = Some(line.value(value)),
        "delay-max" => values.play_delay_max = Some(line.value(value)),
        "content" => values.video_content_type = Some(line.value(value)),
        "mid" => values.mid = Some(Mid::from(value)),
        "rid" => values.rid = Some(Rid::from(value)),
        "repaired" => values.rid_repair = Some(Rid::from(value)),
        "orientation" => {
            let orientation = line.value::<u8>(value);
            values.video_orientation = Some(VideoOrientation::from(orientation));
        }
        _ => set_time(line, values, name, value),
    }
}

/// When a frame was captured, and after it the offset of the capturing clock.
fn set_time(line: &mut CommandLine<'_>, values: &mut ExtensionValues, name: &str, value: &str) {
    match name {
        "captured" => {
            values.abs_capture_time = Some(AbsCaptureTime {
                capture_time: line.value::<u64>(value),
                clock_offset: None,
            });
        }
        "offset" => match &mut values.abs_capture_time {
            Some(time) => time.clock_offset = Some(line.value(value)),
            None => line.refuse("no captured in front of offset"),
        },
        _ => line.refuse(format_args!("no field {name}")),
    }
}
