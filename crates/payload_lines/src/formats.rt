//! The payload format that the next lines are about.

use h26x_payload::{CodecDepacketizer, CodecPacketizer, NotBoxed};
use payload_core::{Codec, DepacketizingBuffer, MIN_HELD, Payloader};
use rtp_wire::Frequency;
use std::alloc::Global;
use words_and_replies::{CommandLine, part};

/// A codec with what is negotiated of its payload format, the first picture id, whether what browsers need is sent,
/// and the hold-back.
#[derive(Drop)]
pub(crate) struct Format {
    pub(crate) codec: Codec,
    octet_align: Option<bool>,
    max_don_diff: Option<u16>,
    clock_rate: Frequency,
    picture_id: Option<u16>,
    for_browsers: bool,
    hold_back: usize,
}

impl Format {
    /// A codec, and how far units may be out of their decoding order where they have numbers; nothing else is set.
    pub(crate) fn new(codec: Codec, max_don_diff: Option<u16>) -> Format {
        Format {
            codec,
            octet_align: None,
            max_don_diff,
            clock_rate: Frequency::EIGHT_KHZ,
            picture_id: None,
            for_browsers: false,
            hold_back: 1023,
        }
    }

    /// The codec and the options that words say, each by its name.
    fn of(line: &mut CommandLine<'_>) -> Format {
        let mut format = Format::new(Codec::from(line.word()), None);
        for word in line.rest().split_whitespace() {
            let (name, number) = part(word, '=');
            match name {
                "aligned" => format.octet_align = Some(true),
                "browsers" => format.for_browsers = true,
                "16kHz" => format.clock_rate = Frequency::SIXTEEN_KHZ,
                "numbers" => format.max_don_diff = Some(line.value(number)),
                "id" => format.picture_id = Some(line.value(number)),
                "hold" => format.hold_back = line.value(number),
                _ => line.refuse(format_args!("no option {word}")),
            }
        }
        format
    }

    /// A depacketizer with no open fragment, if the codec has one.
    pub(crate) fn depacketizer(&self, alloc: Global) -> Option<CodecDepacketizer<NotBoxed>> {
        let mut depacketizer = CodecDepacketizer::<NotBoxed>::new(alloc, self.codec)?;
        depacketizer.configure_for(self.octet_align, self.max_don_diff, self.clock_rate);
        Some(depacketizer)
    }

    /// A packetizer that sent nothing, if the codec has one.
    pub(crate) fn packetizer(&self) -> Option<CodecPacketizer<NotBoxed>> {
        let picture_id = match self.picture_id {
            Some(id) if id < 32768 => Some(id),
            _ => None,
        };
        let mut packetizer = CodecPacketizer::<NotBoxed>::with_picture_id(self.codec, picture_id)?;
        packetizer.configure_for(self.octet_align, self.max_don_diff, self.clock_rate);
        if self.for_browsers {
            return Some(packetizer.with_zero_id().with_prediction());
        }
        Some(packetizer)
    }
}

/// A payload format with a payloader and a buffer, with which samples are sent and packets arrive.
#[derive(Drop)]
pub(crate) struct Formats {
    pub(crate) format: Format,
    pub(crate) payloader: Payloader<CodecPacketizer<NotBoxed>>,
    pub(crate) buffer: DepacketizingBuffer<CodecDepacketizer<NotBoxed>>,
}

impl Formats {
    /// A payload format of a codec that has one.
    fn new(alloc: Global, format: Format) -> Option<Formats> {
        let depacketizer = format.depacketizer(alloc)?;
        Some(Formats {
            payloader: Payloader::new(format.packetizer()?),
            buffer: DepacketizingBuffer::new(alloc, depacketizer, format.hold_back, MIN_HELD),
            format,
        })
    }
}

/// `codec NAME [aligned] [numbers=N] [id=N] [browsers] [hold=N] [16kHz]`: takes up a payload format.
pub(crate) fn take_up(line: &mut CommandLine<'_>, formats: &mut Option<Formats>) {
    let whole = line.rest();
    let format = Format::of(line);
    let codec = format.codec;
    match Formats::new(line.alloc(), format) {
        _ if line.is_refused() => {}
        None => line.refuse(format_args!("no payload format of {codec}")),
        taken_up => {
            *formats = taken_up;
            line.put(format_args!("codec {whole}"));
        }
    }
}
