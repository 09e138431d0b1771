//! Payloads beside older ones (RFC 2198).

use payload_core::{RedDecoder, RedEncoder, RedSender, RedundantBlock};
use words_and_replies::{CommandLine, part};

/// What `new DISTANCES`, `sync DISTANCES`, `wrap`, `write` and `read PACKET` give.
pub(crate) fn answer(line: &mut CommandLine<'_>, sender: &mut RedSender) {
    match line.word() {
        "wrap" => wrapped(line, sender),
        "write" => written(line),
        "read" => read(line),
        "new" => renewed(line, sender),
        "sync" => synced(line, sender),
        command => line.refuse(format_args!("no command red {command}")),
    }
}

/// Forgets what was sent, and takes the distances of the next word, if they are some.
fn renewed(line: &mut CommandLine<'_>, sender: &mut RedSender) {
    match RedSender::new(line.alloc(), &[]) {
        Ok(other) => {
            *sender = other;
            synced(line, sender);
        }
        Err(fault) => line.refuse(fault),
    }
}

/// Takes the distances in the next word, if valid: numbers separated by commas, or a dash for none.
fn synced(line: &mut CommandLine<'_>, sender: &mut RedSender) {
    let mut distances = Vec::new(line.alloc());
    let word = line.word();
    for part in if word == "-" { "" } else { word }.split_terminator(',') {
        let distance = line.value::<u32>(part);
        line.keep(&mut distances, distance);
    }
    if !RedSender::are_distances(&distances) {
        line.refuse("no distances");
    } else if sender.sync(&distances).is_err() {
        line.refuse("out of memory");
    }
    line.put(word);
}

/// `wrap TYPE TIME BUDGET PAYLOAD`: the packet that a payload is sent in.
fn wrapped(line: &mut CommandLine<'_>, sender: &mut RedSender) {
    let (pt, time) = (line.number::<u8>(), line.number::<u32>());
    let budget = line.number::<usize>();
    let payload = line.bytes();
    if line.is_refused() {
        return;
    }
    match sender.wrap(pt, &payload, time, budget) {
        Ok(packet) => line.put_bytes(&packet),
        Err(fault) => line.refuse(fault),
    }
}

/// A block from `TYPE@OFFSET=PAYLOAD`.
fn block_of(line: &mut CommandLine<'_>, word: &str) -> RedundantBlock {
    let (pt, rest) = part(word, '@');
    let (offset, payload) = part(rest, '=');
    RedundantBlock {
        pt: line.value::<u8>(pt),
        timestamp_offset: line.value::<u32>(offset),
        payload: line.bytes_of(payload),
    }
}

/// `write TYPE PAYLOAD BLOCK ..`: the packet of a primary payload after blocks.
fn written(line: &mut CommandLine<'_>) {
    let pt = line.number::<u8>();
    let payload = line.bytes();
    let mut blocks = Vec::new(line.alloc());
    for word in line.rest().split_whitespace() {
        let block = block_of(line, word);
        line.keep(&mut blocks, block);
    }
    match RedEncoder::encode(line.alloc(), pt, &payload, &blocks) {
        Ok(packet) => line.put_bytes(&packet),
        Err(fault) => line.refuse(fault),
    }
}

/// The blocks of a packet, each as `write` reads it, and a star after the primary payload.
fn read(line: &mut CommandLine<'_>) {
    let packet = line.bytes();
    match RedDecoder::decode(&packet) {
        Ok(blocks) => {
            for block in blocks {
                line.put(format_args!("{}@{}=", block.pt, block.timestamp_offset));
                line.put_bytes(block.payload);
                line.put(if block.primary { "*" } else { " " });
            }
        }
        Err(fault) => line.refuse(fault),
    }
}
