//! A run of datagrams at one window.

ghost use Rattle.std.specs.Prelude.{◌≡◌, None, IfOk, map};
ghost use Rattle.rtp_wire.specs.Header.{header_in};
ghost use Rattle.rtp_wire.specs.Run.{reception_of, window_behind, receptions};

use crate::header::RtpHeader;
use crate::map::ExtensionMap;
use crate::sequence::SeqNo;
use crate::window::SeqNoWindow;
use std::alloc::{AllocError, Global};

/// What became of a datagram.
#[derive(Clone, Copy, Debug, PartialEq, Eq, Drop)]
pub enum Reception {
    /// It begins with no header.
    Unreadable,
    /// Its number came before, or is 1,024 or more below the greatest.
    Refused,
    /// Its number is recorded.
    Taken(SeqNo),
}

/// Takes one datagram in at a window, which is None before the first: a step of `receive_run`. The payload is not
/// looked at. A datagram that isn't taken leaves the window as it was.
pub fn receive_one(
    window: &mut Option<SeqNoWindow>,
    datagram: &[u8],
    exts: &ExtensionMap,
) -> Reception
    ensures answer { result ≡ reception_of window.old (header_in exts.now datagram.now) }
    ensures after { window.new ≡ window_behind window.old (header_in exts.now datagram.now) }
{
    let Some(header) = RtpHeader::parse(datagram, exts) else {
        return Reception::Unreadable;
    };
    match window {
        None => {
            let number = header.sequence_number(None);
            *window = Some(SeqNoWindow::new(number));
            Reception::Taken(number)
        }
        Some(window) => {
            let number = header.sequence_number(Some(window.max_seq()));
            if !window.accepts(number) {
                return Reception::Refused;
            }
            window.update(number);
            Reception::Taken(number)
        }
    }
}

/// What becomes of each datagram of a list, at one window that is new for the whole list; payloads
/// are not looked at.
///
/// # Errors
/// Out of memory for the list of answers.
pub fn receive_run(
    alloc: Global,
    datagrams: &[&[u8]],
    exts: &ExtensionMap,
) -> Result<Vec<Reception>, AllocError>
    ensures { IfOk result (λ v. v.items ≡ receptions exts.now None (map (λ d. d.now) datagrams.now)) }
{
    let mut window = None;
    let mut verdicts = Vec::new(alloc);
    for datagram in datagrams {
        let verdict = receive_one(&mut window, datagram, exts);
        verdicts.push(verdict)?;
    }
    Ok(verdicts)
}
